// "Where a line may be broken".
ghost use Rattle.std.specs.Prelude.{◌≡◌, true};
ghost use Rattle.rules.specs.Records.{class_ok};
ghost use Rattle.rules.specs.Sides.{arabic_digit, forbidden};
ghost use Rattle.rules.specs.Spacing.{break_of};
ghost use Rattle.rules.specs.Tables.{break_number};
ghost use Rattle.rules.specs.Structs.{side_of};

use crate::groups::Side;
use crate::spacing::Break;
use lists::Class;

// 0 to 9.
fn arabic_digit(code: u32) -> bool
    ensures { result ≡ arabic_digit code }
{
    (0x30..=0x39).contains(&code)
}

// Whether a line may not be broken between the two. `line_break` is what the spacing table has for their classes.
#[tactic(auto, using(crate::proofs::SpacingBreaks::told_by_break))]
pub(crate) fn break_forbidden(line_break: Break, left: Side, right: Side) -> bool
    requires class_value { (class_ok left.class ≡ true) × (class_ok right.class ≡ true) }
    requires break_value { break_number line_break ≡ break_of left.class right.class }
    ensures { result ≡ forbidden (side_of left) (side_of right) }
{
    match line_break {
        Break::Permitted => false,
        Break::Forbidden => true,
        // the code points decide: two dashes, or a digit before a postfixed abbreviation, as 5% and 25℃ stay together
        Break::ByCode if left.class == Class::Inseparable as u32 => left.code == right.code,
        Break::ByCode => arabic_digit(left.code),
    }
}
