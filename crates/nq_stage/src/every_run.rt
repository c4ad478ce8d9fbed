//! What holds of every run with staged writes. Each law stands on a function with an empty body, whose clause is the law and whose
//! proof stands in `proofs/`.

ghost use Rattle.nq_stage.specs.Boots.{AnswersAreOfTheBoot, BootsAreCounted, CrashesLoseAll, PoolIsOfItsBoot};
ghost use Rattle.nq_stage.specs.Lawful.{HeadlineHoldsOutside, InnerRunsAreLawful};
ghost use Rattle.nq_stage.specs.Met.{StagingIsMet};
ghost use Rattle.nq_stage.specs.NotStored.{BesideStoresNothing, StagedAreUnsaved, UnstagedStoresNothing};
ghost use Rattle.nq_stage.specs.Theorem.{EachIsDeliveredAsItsPacket, EachStandsForItsPacket, RebuildsWhatWasMeant};

/// Each WRITE that the pool rebuilds is byte for byte the inner packet for which its COMMIT stands. So it is in every run of at most
/// 64 hosts and 100,000 events whose calls bring blocks.
pub fn rebuilds_what_was_meant()
    ensures { RebuildsWhatWasMeant }
{}

/// In every such run a packet that travels stands for none, or for an inner packet that was sent, between the same two: it carries
/// the bytes of that packet, or is the COMMIT of the push that it is. Its delivery is that of the inner packet, but for a COMMIT whose
/// body the pool does not have.
pub fn each_stands_for_its_packet()
    ensures carries { EachStandsForItsPacket }
    ensures delivered { EachIsDeliveredAsItsPacket }
{}

/// The inner schedule of a lawful staged schedule is lawful, so what is promised of lawful runs is promised of staged ones: the
/// headline, where it holds of runs, holds of the inner world.
pub fn inner_runs_are_lawful()
    ensures lawful { InnerRunsAreLawful }
    ensures headline { HeadlineHoldsOutside }
{}

/// What is staged does not count as stored. A STAGE, its reply, an UNSTAGED and a COMMIT without its body leave the inner world as
/// it is, and a client that runs keeps each of its delayed writes until it is stored, or found lost.
pub fn staged_is_not_stored()
    ensures beside { BesideStoresNothing }
    ensures unstaged { UnstagedStoresNothing }
    ensures unsaved { StagedAreUnsaved }
{}

/// A pool never answers with a body of an earlier boot, of another incarnation or of another write: a crash raises the boot and
/// empties the pool, and the body of a WRITE that is rebuilt came since then in the newest STAGE of that very write.
pub fn answers_are_of_the_boot()
    ensures counted { BootsAreCounted }
    ensures pool { PoolIsOfItsBoot }
    ensures lost { CrashesLoseAll }
    ensures answers { AnswersAreOfTheBoot }
{}

/// There is a staged schedule of which all these laws speak, and they refuse what it leads to with a part taken away.
pub fn staging_is_met()
    ensures { StagingIsMet }
{}
