// A signed number in decimal, for programs that print one.
#![tactic(auto)]

ghost use Rattle.std.specs.Prelude.{◌≡◌};
ghost use Rattle.text.specs.Output.{waiting, puts};
ghost use Rattle.signed.specs.Signed.{signed};

use text::output::Out;

// Puts a number with its sign.
pub fn put_number(out: &mut Out, z: i64)
    ensures { waiting out.new ≡ puts (waiting out.old) (signed z) }
{
    if z < 0 {
        out.put(b"-");
    }
    out.put_natural(z.unsigned_abs());
}
