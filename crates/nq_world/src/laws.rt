//! Worlds whose packets are bytes.

ghost use Rattle.nq_world.specs.Rooms.{EventsSendLittle};
ghost use Rattle.nq_world.specs.Running.{WorldsRun};
ghost use Rattle.nq_world.specs.Stepping.{BytesShowTheRun};

/// What is seen of a world whose packets are bytes follows the world of the protocol, event by event.
pub fn bytes_show_the_run()
    ensures { BytesShowTheRun }
{}

/// A world that tests each event before it takes it in takes in a run of the protocol, of which the headline can be said.
pub fn worlds_run()
    ensures { WorldsRun }
{}

/// An event of a run sends at most 64 datagrams of at most 4196 bytes.
pub fn events_send_little()
    ensures { EventsSendLittle }
{}
