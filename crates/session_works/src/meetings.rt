//! How desk and driver learn how far the other has come.

ghost use Rattle.std.specs.Prelude.{◌≡◌};
ghost use Rattle.serial_laws.specs.Steps.{Met};
ghost use Rattle.session_works.specs.Insides.{seen};

use crate::works::SessionWorks;
use client_kinds::Guest;
use jack_host::{Source, Store};

/// Tells desk and driver how far the other has come.
pub fn meet<S: Source, W: Store, G: Guest>(works: &mut SessionWorks<S, W, G>)
    requires { works.old.desk.publishing.table ≡ works.old.driver.reading.table }
    ensures met { Met (seen G.sound works.old) (seen G.sound works.new) }
    ensures desk { works.new.desk ≡ record works.old.desk { publishing = works.new.desk.publishing } }
    ensures driver { works.new.driver ≡ record works.old.driver { reading = works.new.driver.reading } }
    ensures recorders { works.new.recorders ≡ works.old.recorders }
    ensures readers { works.new.readers ≡ works.old.readers }
{
    works.desk.meet(works.driver.reader());
}
