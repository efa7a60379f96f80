//! The history of a session: its writing jobs that were done, one after another. Who adds to it and who looks at it agree on it, since it
//! only grows; it stands in proofs, and what is counted of it is its length.
ghost use Rattle.std.specs.Prelude.{◌≡◌, ◌++◌, ◌∷◌, [], length, nat_le, true, IfSome};
ghost use mathlib.Core.List.{IsPrefix};
ghost use Rattle.hgs_session.specs.Noted.{call_of};
ghost use Rattle.hgs_session.specs.Rules.{head_of};

use crate::naming::Naming;
use crate::noted::Noted;
use hgs_files::ends::Told;
use logbook::{Gain, Offer, Plain, Play, Rule, Seen, Start, Word};
use std::marker::{Model, PhantomData};

/// The rule of the history: one word is its length.
pub struct Listed;

impl<F: Told> Rule<Noted<F>, u64> for Listed {
    ghost use Rattle.std.specs.Prelude.{[]};
    ghost use base.Fml.{ftrue};
    ghost use Rattle.hgs_session.specs.Rules.{IsKept};

    ghost holds = { λ cells log. IsKept cells log };

    ghost first = { [] };

    ghost hinted = { λ n log. Unit {0} };

    ghost shows = { λ log. [] };

    ghost keeps = { λ names log. ftrue };

    ghost moves = { λ ask before after answer. Unit {0} };
}

/// Callers trade nothing.
pub struct Nothing;

impl<F: Told> Gain<Noted<F>, u64> for Nothing {
    ghost use base.Fml.{ftrue};

    ghost after = { λ names about answer. ftrue };
}

/// The step that adds a job.
pub struct Adds;

impl<F: Told> Play<Noted<F>, u64> for Adds {
    ghost use Rattle.hgs_session.specs.Rules.{Added};

    ghost then = { Added };
}

/// What the step asks for: the job.
impl<F: Told> Plain<Noted<F>, Noted<F>, u64> for Adds {
    ghost use Rattle.std.specs.Prelude.{None};

    ghost ask = { λ noted. noted };

    ghost state = { λ noted. None };
}

const MOST: u64 = 1 << 62;

/// A history with no jobs, which has no name yet.
pub struct Opened<F: Told> {
    head: Word<Noted<F>, u64, Listed>,
    seen: Seen<Noted<F>, u64, Listed>,
    pub ghost empty: { seen.log ≡ [] },
    pub ghost head_is: { head ≡ head_of seen.book },
}

impl<F: Told> Opened<F> {
    pub fn new() -> Opened<F> {
        let (seen, mut first, _second) = Seen::open(Start::alone(), 0, 0);
        Opened {
            head: Word::tracked(0, &mut first),
            seen,
        }
    }

    /// What can add to the history, under its name, and the front with no jobs.
    pub fn named<N: Naming>(self) -> (Head<N, F>, Front<N, F>)
        requires { self.seen.book ≡ N.book }
        ensures { result.1 ≡ [] }
    {
        let Opened { head, seen } = self;
        (
            Head {
                head,
                of: PhantomData,
            },
            Front {
                count: 0,
                seen,
                of: PhantomData,
            },
        )
    }
}

/// The word that says how long the history is.
#[derive(Drop)]
pub struct Head<N: Naming, F: Told> {
    head: Word<Noted<F>, u64, Listed>,
    of: PhantomData<N>,
    ghost head_is: { head ≡ head_of N.book },
}

/// A front of the history. Contracts see it as calls, each with the log behind it.
#[derive(Drop)]
pub struct Front<N: Naming, F: Told> {
    count: u64,
    seen: Seen<Noted<F>, u64, Listed>,
    of: PhantomData<N>,
}

impl<N: Naming, F: Told> Model for Front<N, F> {
    ghost use Rattle.std.specs.Prelude.{◌≡◌, List, length, map};
    ghost use Rattle.hgs_session.specs.Calls.{Call};
    ghost use Rattle.hgs_session.specs.Noted.{call_of};

    ghost Value = { List Call };

    ghost view = { λ f. map (call_of F.log) f.seen.log };

    ghost invariant = { λ f. (f.count ≡ length f.seen.log) × (f.seen.book ≡ N.book) };
}

impl<N: Naming, F: Told> Front<N, F> {
    /// How many jobs it has.
    pub fn len(&self) -> u64
        ensures { result ≡ length self.now }
    {
        self.count
    }

    /// A copy. It takes no memory.
    pub fn again(&self) -> Front<N, F>
        ensures { result ≡ self.now }
    {
        Front {
            count: self.count,
            seen: self.seen.again(),
            of: PhantomData,
        }
    }

    /// Whether another front goes on from this one: of two fronts of one history the longer does.
    pub fn begins(&self, other: &Front<N, F>) -> bool
        ensures order { result ≡ nat_le (length self.now) (length other.now) }
        ensures prefix { result ≡ true → IsPrefix self.now other.now }
    {
        let mut both = self.seen.again();
        both.learn(&other.seen);
        self.count <= other.count
    }

    /// The front with one job more, or none where the history is longer than this front already.
    pub fn with(&self, head: &Head<N, F>, noted: &Noted<F>) -> Option<Front<N, F>>
        ensures { IfSome result (λ front. front ≡ self.now ++ call_of F.log noted.now ∷ []) }
    {
        if self.count >= MOST {
            return None;
        }
        let mut seen = self.seen.again();
        let mut offer: Offer<Noted<F>, u64, Listed, Nothing> = self
            .seen
            .plain::<Nothing, Noted<F>, Adds>(noted);
        let mut pen = seen.no_pen();
        let count = self.count;
        let found = head
            .head
            .compare_exchange::<Adds, Nothing>(count, count + 1, &mut seen, &mut offer, &mut pen);
        if found != count {
            return None;
        }
        Some(Front {
            count: count + 1,
            seen,
            of: PhantomData,
        })
    }
}
