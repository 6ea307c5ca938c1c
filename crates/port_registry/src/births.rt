//! In which order ports stand.

ghost use Rattle.std.specs.Prelude.{◌≡◌, ◌≤◌, ℕ, Bool, Contains, List, map};
ghost use Rattle.session_laws.specs.jack_types.specs.declared.ports.Port.{Port as PortValue};
ghost use Rattle.port_registry.specs.Registered.{AreInOrder, Registered, system_ports, unlisted, with_active, with_port, without_client, without_port};

/// Ports stand in order of birth, where each is registered under a number that no birth before is above: those of
/// `system` do, and what each call makes of the list leaves it so.
pub fn ports_stand_in_order_of_birth()
    ensures opening { (ports : List PortValue) (capture playback : ℕ) → map unlisted ports ≡ system_ports capture playback → AreInOrder ports }
    ensures registered { (held : Registered) (port : PortValue) → AreInOrder held.ports → ((other : PortValue) → Contains held.ports other → other.birth ≤ port.birth) → AreInOrder (with_port port held).ports }
    ensures closed { (held : Registered) (name : List ℕ) → AreInOrder held.ports → AreInOrder (without_client name held).ports }
    ensures active { (held : Registered) (name : List ℕ) (active : Bool) → AreInOrder held.ports → AreInOrder (with_active name active held).ports }
    ensures unregistered { (held : Registered) (name : List ℕ) → AreInOrder held.ports → AreInOrder (without_port name held).ports }
{}
