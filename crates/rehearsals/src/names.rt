//! The names of a rehearsal's clients and ports.

ghost use Rattle.std.specs.Prelude.{◌≡◌, ◌<◌, ◌≤◌, ◌++◌, None, codes, decimal, length};
ghost use Rattle.jack_types.specs.Names.{client_name_fault, port_name_fault};
ghost use Rattle.rehearsal_model.specs.Rehearsals.{client_name, input_name, output_name};

use arrayvec::ArrayString;
use itoa::Buffer;
use jack_types::{ClientName, PortName};
use rehearsal_laws::names::names_are_lawful;

// The letter, a number of at most ten digits, and the two bytes of a port.
type Text = ArrayString<13>;

// The letter c, this number, and then this end.
fn text_of(i: u32, end: &str) -> Text
    requires { length end.now ≤ 2 }
    ensures { result.bytes ≡ client_name i ++ end.now }
{
    let mut text = Text::new();
    text.push_str("c");
    text.push_str(Buffer::new().format(i));
    text.push_str(end);
    text
}

/// The name that a text is.
pub(crate) fn client_of(text: &str) -> ClientName
    requires { client_name_fault text.now ≡ None }
    ensures { result ≡ text.now }
{
    let Ok(name) = ClientName::read(text) else {
        unreachable!()
    };
    name
}

/// The port's name that a text is.
pub(crate) fn port_of(text: &str) -> PortName
    requires { port_name_fault text.now ≡ None }
    ensures { result ≡ text.now }
{
    let Ok(name) = PortName::read(text) else {
        unreachable!()
    };
    name
}

/// A client.
pub(crate) fn client(i: u32) -> ClientName
    requires { i < 32 }
    ensures { result ≡ client_name i }
{
    names_are_lawful();
    client_of(&text_of(i, ""))
}

/// Its input.
pub(crate) fn input(i: u32) -> PortName
    requires { i < 32 }
    ensures { result ≡ input_name i }
{
    names_are_lawful();
    port_of(&text_of(i, ":i"))
}

/// Its output.
pub(crate) fn output(i: u32) -> PortName
    requires { i < 32 }
    ensures { result ≡ output_name i }
{
    names_are_lawful();
    port_of(&text_of(i, ":o"))
}
