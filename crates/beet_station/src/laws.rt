//! What is known of three servers once their loops have ended.

ghost use Rattle.beet_field.specs.declared.trio.Trio.{Trio};
ghost use Rattle.beet_server.specs.Cores.{AreFresh, Core};
ghost use Rattle.beet_station.specs.Stations.{AreEnded};
ghost use Rattle.beet_server.specs.Lockstep.{HaveEnded};

use beet_gates::Script;

/// Three servers that their loops have run to the end are as after lockstep.
pub fn ended_servers_are_as_after_lockstep<S: Script<3>>()
    ensures { (start ended : Trio (Core S)) → AreFresh S.batch_of S.inputs_of start
        → AreEnded S.batch_of S.inputs_of S.rounds_of start ended
        → HaveEnded S.batch_of S.inputs_of S.rounds_of start ended }
{}
