//! Laws of the names of clients and ports.

ghost use Rattle.std.specs.Prelude.{◌≡◌, ◌<◌, ℕ, None};
ghost use Rattle.jack_types.specs.Names.{client_name_fault, port_name_fault};
ghost use Rattle.rehearsal_model.specs.Rehearsals.{client_name, input_name, output_name};

/// The names of the clients and of their ports are lawful.
pub fn names_are_lawful()
    ensures clients { (i : ℕ) → i < 32 → client_name_fault (client_name i) ≡ None }
    ensures inputs { (i : ℕ) → i < 32 → port_name_fault (input_name i) ≡ None }
    ensures outputs { (i : ℕ) → i < 32 → port_name_fault (output_name i) ≡ None }
{}
