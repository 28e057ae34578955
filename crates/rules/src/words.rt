// Words written one after the other.
ghost use Rattle.std.specs.Prelude.{◌≡◌, ◌+◌, ◌≤◌, length};
ghost use Rattle.std.proofs.Math.Seq.{paste};

/// Writes some words from word `at` on.
pub fn put<const N: usize>(words: &mut [u32], at: usize, new: [u32; N])
    requires { at + N ≤ length words.old }
    ensures { words.new ≡ paste words.old at new.entry N }
{
    words[at..at + N].copy_from_slice(&new);
}
