//! What keeps an accepted commit from being written.
ghost use Rattle.std.specs.Prelude.{◌≡◌, true, false, None, Some, OnOk};
ghost use Rattle.hgs_model.specs.History.{first_of};
ghost use Rattle.hgs_commit.specs.Hindered.{is_met, refusal_of};
ghost use Rattle.hgs_commit.specs.Obstacles.{collides, met_of, nothing_met, noted_one, passes, stands};

use hgs_bytes::bytes::Bytes;
use hgs_files::path::StorePath;
use hgs_index::kinds::Which;
use hgs_steps::fault::PlanFault;

/// A file whose text cannot become a revision, since a revision has its node.
#[derive(Debug, Drop)]
pub struct Collided {
    /// The index of the revlog.
    pub path: StorePath,
    pub rev: u32,
}

/// What was met of each kind while a commit was worked out. A commit that changes nothing is refused as such, whatever was
/// met; else a limit comes before a clash of names, this before a file in the way, and this before a collision.
#[derive(Debug, Drop)]
pub struct Hindrances {
    pub limit: Option<Which>,
    /// Another path with the same store name.
    pub clash: Option<Bytes>,
    /// A file that stands where a new filelog would be.
    pub in_the_way: Option<StorePath>,
    pub collision: Option<Collided>,
}

impl Hindrances {
    /// Nothing was met.
    pub fn none() -> Hindrances
        ensures none { is_met result ≡ false }
        ensures met { met_of result ≡ nothing_met }
        ensures clash { result.clash ≡ None }
    {
        Hindrances {
            limit: None,
            clash: None,
            in_the_way: None,
            collision: None,
        }
    }

    /// Notes a limit that would be passed. The first in the order of their numbers is told.
    pub fn meet_limit(&mut self, which: Which)
        ensures some { is_met self.new ≡ true }
        ensures met { met_of self.new ≡ noted_one (met_of self.old) (passes which) }
        ensures clash { self.new.clash ≡ self.old.clash }
    {
        let is_first = match self.limit {
            Some(met) => which.number() < met.number(),
            None => true,
        };
        if is_first {
            self.limit = Some(which);
        }
    }

    /// Notes another path with the same store name. The first is told.
    pub fn meet_clash(&mut self, other: Bytes)
        ensures some { is_met self.new ≡ true }
        ensures met { met_of self.new ≡ met_of self.old }
        ensures clash { self.new.clash ≡ first_of self.old.clash (Some other) }
    {
        if self.clash.is_none() {
            self.clash = Some(other);
        }
    }

    /// Notes a file that stands where a new filelog would be. The first is told.
    pub fn meet_file(&mut self, path: StorePath)
        ensures some { is_met self.new ≡ true }
        ensures met { met_of self.new ≡ noted_one (met_of self.old) (stands path) }
        ensures clash { self.new.clash ≡ self.old.clash }
    {
        if self.in_the_way.is_none() {
            self.in_the_way = Some(path);
        }
    }

    /// Notes a revision that has the node of a new one of the revlog with this index. The first is told.
    pub fn meet_collision(&mut self, path: StorePath, rev: u32)
        ensures some { is_met self.new ≡ true }
        ensures met { met_of self.new ≡ noted_one (met_of self.old) (collides path rev) }
        ensures clash { self.new.clash ≡ self.old.clash }
    {
        if self.collision.is_none() {
            self.collision = Some(Collided { path, rev });
        }
    }

    /// That nothing was met; else the refusal of a commit of which this was.
    pub fn refusal(self) -> Result<(), PlanFault>
        ensures refusal { result ≡ refusal_of self }
        ensures none { OnOk result (is_met self ≡ false) }
    {
        let Hindrances {
            limit,
            clash,
            in_the_way,
            collision,
        } = self;
        if let Some(which) = limit {
            return Err(PlanFault::Limit(which));
        }
        if let Some(other) = clash {
            return Err(PlanFault::NameClash(other));
        }
        if let Some(path) = in_the_way {
            return Err(PlanFault::InTheWay(path));
        }
        if let Some(Collided { path, rev }) = collision {
            return Err(PlanFault::Collision { path, rev });
        }
        Ok(())
    }
}
