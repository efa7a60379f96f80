//! The texts of the manifests that were used last.

use hgs_index::node::Node;
use hgs_reader::find::StoredText;
use lru::LruCache;
use std::alloc::{AllocError, Global};
use std::marker::Model;
use std::num::NonZeroUsize;

/// As many texts are kept.
const MOST_KEPT: usize = 16;

/// The texts of the manifests that were used last. Contracts see them with their nodes, the one that was used last first.
#[derive(Drop)]
pub struct RecentTexts {
    cache: LruCache<[u8; 20], StoredText>,
}

impl Model for RecentTexts {
    ghost use Rattle.hgs_recent.specs.Texts.{Texts, AreKept};

    ghost Value = { Texts };

    ghost view = { λ t. t.cache.entries };

    ghost invariant = { λ t. AreKept t.cache };
}

impl RecentTexts {
    ghost use Rattle.std.specs.Prelude.{◌≡◌, ◌≤◌, [], length, IfOk, IfSome, option_copied};
    ghost use Rattle.hgs_revlog.specs.Load.{most_text};
    ghost use Rattle.hgs_recent.specs.Texts.{MayKeep, looked_up, text_under};

    /// No texts.
    pub fn new(alloc: Global) -> Result<RecentTexts, AllocError>
        ensures { IfOk result (λ texts. texts ≡ []) }
    {
        Ok(RecentTexts {
            cache: LruCache::new(alloc, NonZeroUsize::new(MOST_KEPT).unwrap())?,
        })
    }

    /// Makes the text under this node the one that was used last, where there is one.
    pub fn look_up(&mut self, node: &Node)
        ensures { self.new ≡ looked_up node.now.0 self.old }
    {
        self.cache.promote(&node.0);
    }

    /// The text under this node.
    pub fn get(&self, node: &Node) -> Option<&StoredText>
        ensures text { option_copied result ≡ text_under node.now.0 self.now }
        ensures small { IfSome result (λ text. length text.now ≤ most_text) }
    {
        self.cache.peek(&node.0)
    }

    /// Keeps a text that was read, as the one that was used last; where there is no memory, nothing changes.
    pub fn keep(&mut self, node: &Node, text: StoredText)
        requires { length text ≤ most_text }
        ensures { MayKeep node.now.0 text self.old self.new }
    {
        match self.cache.put(node.0, text) {
            Ok(_) => {}
            Err(_) => {}
        }
    }
}
