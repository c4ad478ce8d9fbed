//! The worlds in which a schedule is played.

ghost use Rattle.std.specs.Prelude.{◌≡◌, ◌<◌, ℕ, Option, Some, IfOk};
ghost use Rattle.nq_base.specs.declared.Event.{Event};
ghost use Rattle.nq_model.specs.protocol.Stepped.{done};
ghost use Rattle.nq_model.specs.protocol.World.{Head};
ghost use Rattle.nq_replay.specs.AsidesGoing.{Goes};
ghost use Rattle.nq_replay.specs.AsidesPlaying.{took};
ghost use Rattle.nq_replay.specs.Rules.{Rules, packet_of, with_event};
ghost use Rattle.nq_replay.specs.RulesGoing.{IsNoFault, StepsBy};
ghost use Rattle.nq_world.specs.Playing.{CanCome};
ghost use Rattle.nq_world.specs.declared.stepped.Stepped.{Stepped};

use nq_base::{Event, NoMemory};
use nq_world::Stepped;

/// A world in which a schedule is played. Its packets are those that travel outside, if it stands around an inner world.
pub trait OuterWorld {
    /// What it takes in.
    type Event: Drop;

    /// What a line says that is none of a schedule.
    type Aside: Copy + Drop;

    /// What playing comes to.
    ghost Moment: { Type 0 };

    /// The rules of the world.
    ghost rules: { Rules Self.Event Self.Aside Moment };

    /// Whether it has come to a moment of a run with this head.
    ghost plays: { Head → Moment → Self → Type 0 };

    /// Whether the second world is the first one after steps of which the last was answered so.
    ghost goes_on: { Stepped → Self → Self → Type 0 };

    /// How many hosts it has.
    ghost hosts: { Self → ℕ };

    /// The longest term that a boot may have.
    ghost longest: { Self → ℕ };

    /// Whether an event can come to it.
    ghost can_come: { Self → Self.Event → Type 0 };

    /// Whether it can do what an aside says.
    ghost can_act: { Self → Self.Aside → Type 0 };

    /// An event of a schedule as one of the world.
    fn of_schedule(event: Event) -> Self::Event
        ensures { result ≡ rules.of_schedule event };

    /// The packet that an event delivers, if it is a delivery.
    fn packet_of(event: &Self::Event) -> Option<u64>
        ensures { result ≡ packet_of (rules.in_schedule event.now) };

    /// How many packets travel, once all that was made has gone out.
    ///
    /// # Errors
    ///
    /// Only want of memory; the world is at the same moment then.
    fn sent(&mut self) -> Result<u64, NoMemory>
        ensures same { (head : Head) (moment : Moment) → plays head moment self.old → plays head moment self.new }
        ensures packets { IfOk result (λ packets. (head : Head) (moment : Moment) → plays head moment self.old → packets ≡ rules.sent head moment) }
        ensures keeps { goes_on Stepped.Done self.old self.new };

    /// Takes an event in. After every answer but `Done` the world is at the moment at which it was, unless its keeper failed.
    fn step(&mut self, event: &Self::Event) -> Stepped
        requires { can_come self.old event.now }
        ensures steps { (head : Head) (moment : Moment) → plays head moment self.old → StepsBy rules plays head moment event.now result self.new }
        ensures keeps { goes_on result self.old self.new };

    /// Does what an aside says.
    fn act(&mut self, aside: Self::Aside) -> Stepped
        requires { can_act self.old aside }
        ensures goes { (head : Head) (moment : Moment) → plays head moment self.old
            → Goes result (rules.aside head aside moment) (λ next. plays head next self.new) }
        ensures keeps { goes_on result self.old self.new };

    /// A world goes on where nothing is done.
    ghost goes_nowhere: { (w : Self) → goes_on Stepped.Done w w };

    /// What goes on behind one that went on, goes on.
    ghost goes_further: { (said : Stepped) (first second last : Self) → goes_on Stepped.Done first second → goes_on said second last
        → goes_on said first last };

    /// Only a fault of the keeper says something of the keeper.
    ghost goes_still: { (said : Stepped) (first last : Self) → IsNoFault said → goes_on Stepped.Done first last → goes_on said first last };

    /// A world keeps its hosts and the longest term.
    ghost keeps_hosts: { (first last : Self) → goes_on Stepped.Done first last → (hosts last ≡ hosts first) × (longest last ≡ longest first) };

    /// What can come of a schedule can come.
    ghost comes_plainly: { (w : Self) (event : Event) → CanCome (hosts w) (longest w) event → can_come w (rules.of_schedule event) };

    /// What can come to a world can come to it later.
    ghost comes_later: { (first last : Self) (event : Self.Event) → goes_on Stepped.Done first last → can_come first event → can_come last event };

    /// What a world can do it can do later.
    ghost acts_later: { (first last : Self) (aside : Self.Aside) → goes_on Stepped.Done first last → can_act first aside → can_act last aside };

    /// An event that was taken is one more, if it is of a schedule.
    ghost one_more: { (moment : Moment) (event : Self.Event)
        → rules.scheduled (rules.more moment event) ≡ with_event (rules.in_schedule event) (rules.scheduled moment) };

    /// An aside is no event of a schedule.
    ghost acts_beside: { (head : Head) (aside : Self.Aside) (moment next : Moment) → rules.aside head aside moment ≡ took next
        → rules.scheduled next ≡ rules.scheduled moment };

    /// A delivery that is taken is that of a packet that travels.
    ghost was_sent: { (head : Head) (moment : Moment) (event : Self.Event) (packet : ℕ) → packet_of (rules.in_schedule event) ≡ Some packet
        → rules.answer head moment event ≡ done → packet < rules.sent head moment };
}
