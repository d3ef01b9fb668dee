// The machine of the passes is the program's.
ghost use Rattle.std.specs.Prelude.{◌≡◌, ℕ, List};
ghost use Rattle.state_store.specs.declared.ports.Session.{Session};
ghost use Rattle.fabric.specs.declared.packets.Arrival.{Arrival};
ghost use Rattle.fabric.specs.Fabric.{fabric};
ghost use Rattle.fabric.specs.Traces.{SameTraces};
ghost use Rattle.fabric.specs.Twins.{AlikeRun, SameFates, fit_any};
ghost use Rattle.p414_sem.specs.Controls.{Setting};
ghost use Rattle.p414_sem.specs.Runs.{Between, events_of, machine14};
ghost use Rattle.p414_pipe_run.specs.Packed.{OneStore, packed_machine};

/// The passes that hold packets with their layout send what the program's passes send, cut as many items and leave the same store,
/// whatever tables were applied before; and they have the same traces.
pub fn packed_runs_as_the_program()
    ensures fates { (c : Setting) (sessions : List Session) (s t : Between) → OneStore s t → SameFates fit_any OneStore sessions (packed_machine c) (machine14 c) s t }
    ensures packet { (c : Setting) (sessions : List Session) (bound : ℕ) (s t : Between) (arrival : Arrival) → OneStore s t → AlikeRun OneStore (fabric (packed_machine c) sessions bound s arrival) (fabric (machine14 c) sessions bound t arrival) }
    ensures traces { (c : Setting) (sessions : List Session) (s : Between) → SameTraces fit_any sessions events_of events_of (packed_machine c) (machine14 c) s s }
{}
