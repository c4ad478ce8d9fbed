//! The procedures and their numbers.

ghost use Rattle.std.specs.Prelude.{◌≡◌, ◌<◌, ◌↔◌, IsNone, IfSome};
ghost use Rattle.nq_wire.specs.Procedure.{number_of, numbered};
ghost use Rattle.nq_wire.specs.Request.{procedure_of};

use crate::Request;

/// The procedures of the program.
#[derive(Clone, Copy)]
pub enum Procedure {
    /// 0: asks for nothing.
    Null,
    /// 1: begins an incarnation.
    Attach,
    /// 2: asks for the id and the length of a name.
    Lookup,
    /// 3: makes a file.
    Create,
    /// 4: asks for a file's length and revision.
    GetAttr,
    /// 5: reads a block, and may ask for a lease.
    Read,
    /// 6: writes a block, through or as a push of delayed writes.
    Write,
    /// 7: asks for a lease.
    GetLease,
    /// 8: a lease was given up. It has no reply.
    Vacated,
    /// 9: a lease is to be given up. It is sent by the server alone, and has no reply.
    Evicted,
    /// 10: gives a file another length.
    Resize,
    /// 11: takes a file away.
    Remove,
}

impl Procedure {
    /// The number of the procedure, 0 to 11.
    pub fn number(self) -> u32
        ensures { result ≡ number_of self }
    {
        match self {
            Procedure::Null => 0,
            Procedure::Attach => 1,
            Procedure::Lookup => 2,
            Procedure::Create => 3,
            Procedure::GetAttr => 4,
            Procedure::Read => 5,
            Procedure::Write => 6,
            Procedure::GetLease => 7,
            Procedure::Vacated => 8,
            Procedure::Evicted => 9,
            Procedure::Resize => 10,
            Procedure::Remove => 11,
        }
    }

    /// The procedure of a number; None exactly where the number is above 11.
    #[tactic(auto, unfolding(crate::specs::Procedure::numbered))]
    pub fn from_number(number: u32) -> Option<Procedure>
        ensures is { result ≡ numbered number }
        ensures none { IsNone result ↔ (11 < number) }
        ensures some { IfSome result (λ p. number_of p ≡ number) }
    {
        Some(match number {
            0 => Procedure::Null,
            1 => Procedure::Attach,
            2 => Procedure::Lookup,
            3 => Procedure::Create,
            4 => Procedure::GetAttr,
            5 => Procedure::Read,
            6 => Procedure::Write,
            7 => Procedure::GetLease,
            8 => Procedure::Vacated,
            9 => Procedure::Evicted,
            10 => Procedure::Resize,
            11 => Procedure::Remove,
            _ => return None,
        })
    }

    /// The procedure that a request calls.
    pub fn of(request: &Request) -> Procedure
        ensures { result ≡ procedure_of request.now }
    {
        match request {
            Request::Null => Procedure::Null,
            Request::Attach { .. } => Procedure::Attach,
            Request::Lookup { .. } => Procedure::Lookup,
            Request::Create { .. } => Procedure::Create,
            Request::GetAttr { .. } => Procedure::GetAttr,
            Request::Read { .. } => Procedure::Read,
            Request::Write { .. } => Procedure::Write,
            Request::GetLease { .. } => Procedure::GetLease,
            Request::Vacated { .. } => Procedure::Vacated,
            Request::Evicted { .. } => Procedure::Evicted,
            Request::Resize { .. } => Procedure::Resize,
            Request::Remove { .. } => Procedure::Remove,
        }
    }
}
