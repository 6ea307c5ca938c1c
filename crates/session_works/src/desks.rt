//! What the type of a desk keeps.

ghost use Rattle.control_desk.specs.Desks.{IsDesk};

use serial_laws::control_desk::Desk;

/// What a desk's type keeps.
pub fn kept_by_type(desk: &Desk)
    ensures { IsDesk desk.now }
{
    let _ = desk.history();
}
