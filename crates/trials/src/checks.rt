// What an example must come to.
ghost use Rattle.std.specs.Prelude.{◌≡◌, true, OnOk};

use std::test::Fail;

pub(crate) fn check(holds: bool) -> Result<(), Fail>
    ensures { OnOk result (holds ≡ true) }
{
    if holds {
        Ok(())
    } else {
        Err(Fail::new("an example comes to something else"))
    }
}
