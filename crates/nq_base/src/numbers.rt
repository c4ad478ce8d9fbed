//! Plain numbers, each with a type of its own and in their usual order. Clauses see each as a number.

use std::marker::Model;

/// A client's host. The hosts of a server are 0 to 63.
#[derive(Clone, Copy, PartialEq, Eq, PartialOrd, Ord, Hash)]
pub struct Host(pub u32);

impl Model for Host {
    ghost use Rattle.std.specs.Prelude.{ℕ};

    ghost Value = { ℕ };

    ghost view = { λ n. n.0 };

    ghost inverse = { λ n. record { 0 = n } };
}

/// An incarnation of a host: it rises with each restart.
#[derive(Clone, Copy, PartialEq, Eq, PartialOrd)]
pub struct Inc(pub u32);

impl Model for Inc {
    ghost use Rattle.std.specs.Prelude.{ℕ};

    ghost Value = { ℕ };

    ghost view = { λ n. n.0 };

    ghost inverse = { λ n. record { 0 = n } };
}

/// The id of a file. Ids are given in order from 1 and never used again.
#[derive(Clone, Copy, PartialEq, Eq, PartialOrd, Ord, Hash)]
pub struct FileId(pub u32);

impl Model for FileId {
    ghost use Rattle.std.specs.Prelude.{ℕ};

    ghost Value = { ℕ };

    ghost view = { λ n. n.0 };

    ghost inverse = { λ n. record { 0 = n } };
}

/// The number of a block within its file, from 0.
#[derive(Clone, Copy, PartialEq, Eq, Hash)]
pub struct BlockNo(pub u32);

impl Model for BlockNo {
    ghost use Rattle.std.specs.Prelude.{ℕ};

    ghost Value = { ℕ };

    ghost view = { λ n. n.0 };

    ghost inverse = { λ n. record { 0 = n } };
}

/// The sequence of a request that is decided once, from 1 in each incarnation.
#[derive(Clone, Copy, PartialEq, Eq, PartialOrd)]
pub struct Seq(pub u64);

impl Model for Seq {
    ghost use Rattle.std.specs.Prelude.{ℕ};

    ghost Value = { ℕ };

    ghost view = { λ n. n.0 };

    ghost inverse = { λ n. record { 0 = n } };
}

/// A file's modify revision (Macklem 1994): it rises with each change of the file.
#[derive(Clone, Copy, PartialEq, Eq)]
pub struct Rev(pub u64);

impl Model for Rev {
    ghost use Rattle.std.specs.Prelude.{ℕ};

    ghost Value = { ℕ };

    ghost view = { λ n. n.0 };

    ghost inverse = { λ n. record { 0 = n } };
}

/// A time or a length of time in ticks. One tick is one second.
#[derive(Clone, Copy, PartialEq, Eq, PartialOrd, Ord)]
pub struct Ticks(pub u64);

impl Model for Ticks {
    ghost use Rattle.std.specs.Prelude.{ℕ};

    ghost Value = { ℕ };

    ghost view = { λ n. n.0 };

    ghost inverse = { λ n. record { 0 = n } };
}

/// The number of a write, from 1 in each incarnation.
#[derive(Clone, Copy, PartialEq, Eq, PartialOrd)]
pub struct Number(pub u64);

impl Model for Number {
    ghost use Rattle.std.specs.Prelude.{ℕ};

    ghost Value = { ℕ };

    ghost view = { λ n. n.0 };

    ghost inverse = { λ n. record { 0 = n } };
}
