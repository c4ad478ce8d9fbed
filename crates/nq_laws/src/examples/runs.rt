//! The runs of the schedules make the journals that stand beside them. To evaluate a run is to open each definition of
//! the model that is marked `unfoldable`, so all of them are named here.
#![tactic(auto, unfolding(nq_base::specs::Block::filled, nq_base::specs::Block::zeros, nq_model::specs::protocol::Ask::grant_of, nq_model::specs::protocol::Ask::sharing_row, nq_model::specs::protocol::Ask::caching_row, nq_model::specs::protocol::Ask::shared_again, nq_model::specs::protocol::Ask::renewed_row, nq_model::specs::protocol::Ask::put_off, nq_model::specs::protocol::Ask::free, nq_model::specs::protocol::Ask::put_off_by_own, nq_model::specs::protocol::Ask::granted, nq_model::specs::protocol::Ask::no_lease, nq_model::specs::protocol::ClientStep::begins_call, nq_model::specs::protocol::ClientStep::is_called, nq_model::specs::protocol::ClientStep::says_busy, nq_model::specs::protocol::ClientStep::at_time, nq_model::specs::protocol::ClientStep::sends_again, nq_model::specs::protocol::ClientStep::fresh_client, nq_model::specs::protocol::ClientStep::attached_client, nq_model::specs::protocol::ClientStep::starts, nq_model::specs::protocol::Decide::decides, nq_model::specs::protocol::Decide::creates, nq_model::specs::protocol::Decide::writes_through, nq_model::specs::protocol::Decide::stores, nq_model::specs::protocol::Decide::wrote, nq_model::specs::protocol::Decide::stores_recovering, nq_model::specs::protocol::Decide::resizes, nq_model::specs::protocol::Decide::removes, nq_model::specs::protocol::Decide::puts_off, nq_model::specs::protocol::Decide::commits, nq_model::specs::protocol::Hear::vacates_lease, nq_model::specs::protocol::Hear::loses, nq_model::specs::protocol::Hear::without_lease, nq_model::specs::protocol::Hear::granted_lease, nq_model::specs::protocol::Hear::holds, nq_model::specs::protocol::Hear::caches_block, nq_model::specs::protocol::Hear::purges, nq_model::specs::protocol::Hear::knows_revision, nq_model::specs::protocol::Hear::marks_through, nq_model::specs::protocol::Hear::ends_push, nq_model::specs::protocol::Hear::spends, nq_model::specs::protocol::Hear::attached, nq_model::specs::protocol::Hear::pauses, nq_model::specs::protocol::Hear::cancels, nq_model::specs::protocol::Hear::notes_notice, nq_model::specs::protocol::Kept::new_file, nq_model::specs::protocol::Kept::written_file, nq_model::specs::protocol::Kept::resized_file, nq_model::specs::protocol::Kept::fenced_file, nq_model::specs::protocol::Kept::with_row, nq_model::specs::protocol::Kept::with_files, nq_model::specs::protocol::Kept::with_new_file, nq_model::specs::protocol::Send::sends_request, nq_model::specs::protocol::Send::after_seq, nq_model::specs::protocol::Send::after_number, nq_model::specs::protocol::Send::takes_push, nq_model::specs::protocol::Send::gives_up, nq_model::specs::protocol::Server::quiet, nq_model::specs::protocol::Server::drops, nq_model::specs::protocol::Server::says, nq_model::specs::protocol::Server::after_notices, nq_model::specs::protocol::Server::keeping, nq_model::specs::protocol::Server::keeping_with, nq_model::specs::protocol::Server::with_table, nq_model::specs::protocol::ServerStep::attaches, nq_model::specs::protocol::ServerStep::tells_later, nq_model::specs::protocol::ServerStep::serves, nq_model::specs::protocol::ServerStep::leases, nq_model::specs::protocol::ServerStep::vacates, nq_model::specs::protocol::ServerStep::ends_writing, nq_model::specs::protocol::ServerStep::opens, nq_model::specs::protocol::ServerStep::at_time, nq_model::specs::protocol::ServerStep::boot, nq_model::specs::protocol::ServerStep::crash, nq_model::specs::protocol::Settle::answers, nq_model::specs::protocol::Settle::after_read, nq_model::specs::protocol::Settle::reads_cached, nq_model::specs::protocol::Settle::after_write, nq_model::specs::protocol::Settle::marks_written, nq_model::specs::protocol::Table::empty_table, nq_model::specs::protocol::Table::with_rows, nq_model::specs::protocol::Table::after_draw, nq_model::specs::protocol::World::after_server, nq_model::specs::protocol::World::after_client, nq_model::specs::protocol::World::start))]

ghost use Rattle.std.specs.Prelude.{IsTrue};
ghost use Rattle.nq_laws.specs.Example.{RunAsGiven, are_fair};
ghost use Rattle.nq_laws.specs.MixedOne.{mixed_one};
ghost use Rattle.nq_laws.specs.MixedThree.{mixed_three};
ghost use Rattle.nq_laws.specs.MixedTwo.{mixed_two};
ghost use Rattle.nq_laws.specs.Worked.{worked};

/// The schedules that each show one thing.
pub fn worked_schedules_run_as_given()
    ensures run { RunAsGiven worked }
{}

/// Schedules of version 1 that mix all kinds of events.
pub fn mixed_schedules_run_as_given()
    ensures one { RunAsGiven mixed_one }
    ensures two { RunAsGiven mixed_two }
{}

/// Schedules of version 2.
pub fn resizing_schedules_run_as_given()
    ensures run { RunAsGiven mixed_three }
{}

/// The schedules that each show one thing are within skew.
pub fn worked_schedules_are_within_skew()
    ensures { IsTrue (are_fair worked) }
{}
