//! Losses that no answer named yet.

ghost use Rattle.std.specs.Prelude.{◌≡◌, ◌++◌, ◌∷◌, ◌↔◌, [], filter, map, IfOk, OnOk, IsTrue};
ghost use Rattle.nq_model.specs.protocol.Client.{add_losses, losses_of, other_losses, span_of};
ghost use Rattle.nq_model.specs.protocol.ClientStep.{changed_file, losses_for};
ghost use Rattle.nq_client_parts.specs.Lost.{Loses, is_beside};

use crate::calls::changed_file;
use nq_base::{Call, FileId, Loss, Losses, NoMemory, Span, Spans};
use std::alloc::Global;
use std::marker::Model;

/// Losses that no answer named yet, in order of files; those of a file stand in the order in which they were found.
/// Clauses see them, and for how many more there is room.
#[derive(Drop)]
pub struct Unreported {
    losses: Vec<Loss>,
}

impl Model for Unreported {
    ghost use Rattle.std.specs.Prelude.{◌-◌, vec_len, vec_capacity};
    ghost use Rattle.nq_base.specs.Lists.{LossList};

    ghost Value = { LossList };

    ghost view = { λ l. record { items = l.losses.items; spare = vec_capacity l.losses - vec_len l.losses } };
}

impl Unreported {
    /// No losses. It takes no memory.
    pub fn new(alloc: Global) -> Unreported
        ensures { result.items ≡ [] }
    {
        Unreported {
            losses: Vec::new(alloc),
        }
    }

    /// The losses that a call is told before anything else: those of the file that it changes or syncs, if it does.
    pub fn named_for(&self, alloc: Global, call: &Call) -> Result<Named, NoMemory>
        ensures { IfOk result (λ n. n ≡ losses_for (changed_file call.now) self.now.items) }
    {
        match changed_file(call) {
            Some(file) => named_of(alloc, &self.losses, file),
            None => Ok(Named {
                losses: Losses::new(alloc).unwrap(),
                spans: Spans::new(alloc).unwrap(),
            }),
        }
    }

    /// Makes what the loss of newly found delayed writes of a file needs.
    pub fn losing(&self, alloc: Global, file: FileId, found: Losses) -> Result<Losing, NoMemory>
        ensures { IfOk result (λ l. Loses l file found.items self.now.items) }
    {
        let after = self.with(alloc, file, &found)?;
        let told = named_of(alloc, &after.losses, file)?;
        Ok(Losing { found, after, told })
    }

    /// These losses with newly found ones of a file, which go behind those of this file that are there.
    fn with(&self, alloc: Global, file: FileId, found: &Losses) -> Result<Unreported, NoMemory>
        ensures { IfOk result (λ l. l.items ≡ add_losses file found.now.items self.now.items) }
    {
        let mut losses = Vec::new(alloc);
        copy_side(&self.losses, file, false, &mut losses)?;
        copy_all(found, &mut losses)?;
        copy_side(&self.losses, file, true, &mut losses)?;
        Ok(Unreported { losses })
    }

    /// Forgets the losses of a file.
    pub fn forget(&mut self, file: FileId)
        ensures { self.new.items ≡ other_losses file self.old.items }
    {
        drop_of(&mut self.losses, file);
    }
}

/// Losses as an answer and as a journal name them. Clauses see the losses.
#[derive(Drop)]
pub struct Named {
    losses: Losses,
    spans: Spans,
}

impl Model for Named {
    ghost use Rattle.std.specs.Prelude.{◌≡◌, List, map};
    ghost use Rattle.nq_base.specs.declared.Loss.{Loss};
    ghost use Rattle.nq_model.specs.protocol.Client.{span_of};

    ghost Value = { List Loss };

    ghost view = { λ n. n.losses.items };

    ghost invariant = { λ n. n.spans.items ≡ map span_of n.losses.items };
}

impl Named {
    /// Whether there are none.
    pub fn is_empty(&self) -> bool
        ensures { IsTrue result ↔ (self.now ≡ []) }
    {
        self.losses.is_empty()
    }

    /// The answer that names them, and how a journal tells it.
    pub fn told(self) -> (Losses, Spans)
        ensures losses { result.0.items ≡ self }
        ensures spans { result.1.items ≡ map span_of self }
    {
        let Named { losses, spans } = self;
        (losses, spans)
    }
}

/// What the loss of delayed writes of a file needs, made before anything changes.
#[derive(Drop)]
pub struct Losing {
    /// What is lost.
    pub found: Losses,
    /// What is unreported then.
    pub after: Unreported,
    /// What a call that waits is told.
    pub told: Named,
}

/// Drops the losses of a file.
fn drop_of(losses: &mut Vec<Loss>, file: FileId)
    ensures { losses.new.items ≡ other_losses file losses.old.items }
{
    losses.retain(|loss| loss.file != file);
}

/// The losses of a file, as an answer and as a journal name them.
#[tactic(auto, using(std::proofs::lemmas::List::Elements::filter_more, std::proofs::lemmas::List::map_push))]
fn named_of(alloc: Global, losses: &[Loss], file: FileId) -> Result<Named, NoMemory>
    ensures { IfOk result (λ n. n ≡ losses_of file losses.now) }
{
    let mut of_file = Losses::new(alloc).unwrap();
    let mut spans = Spans::new(alloc).unwrap();
    for loss in losses {
        if loss.file == file {
            of_file.push(*loss)?;
            spans.push(Span {
                block: loss.block,
                first: loss.first,
                last: loss.last,
            })?;
        }
    }
    Ok(Named {
        losses: of_file,
        spans,
    })
}

/// Adds a loss to others.
fn push(losses: &mut Vec<Loss>, loss: Loss) -> Result<(), NoMemory>
    ensures { OnOk result (losses.new.items ≡ losses.old.items ++ loss ∷ []) }
{
    losses.push(loss)?;
    Ok(())
}

/// Whether a loss is of a later file, or of this or an earlier one.
fn is_beside(loss: &Loss, file: FileId, past: bool) -> bool
    ensures { result ≡ is_beside past file loss.now }
{
    let early = loss.file <= file;
    if past { !early } else { early }
}

/// Adds the losses of later files, or those of a file and of earlier ones, to others.
#[tactic(auto, using(std::proofs::lemmas::List::Elements::filter_more))]
fn copy_side(
    losses: &[Loss],
    file: FileId,
    past: bool,
    into: &mut Vec<Loss>,
) -> Result<(), NoMemory>
    ensures { OnOk result (into.new.items ≡ into.old.items ++ filter (is_beside past file) losses.now) }
{
    for loss in losses {
        if is_beside(loss, file, past) {
            push(into, *loss)?;
        }
    }
    Ok(())
}

/// Adds losses to others.
#[tactic(auto, using(crate::proofs::Found::taken_more))]
fn copy_all(losses: &Losses, into: &mut Vec<Loss>) -> Result<(), NoMemory>
    ensures { OnOk result (into.new.items ≡ into.old.items ++ losses.now.items) }
{
    for place in 0..losses.len() {
        let loss = losses.get(place).unwrap();
        push(into, loss)?;
    }
    Ok(())
}
