ghost use Rattle.std.specs.Prelude.{◌≡◌};
ghost use Rattle.xfs_base.specs.Causes.{next_count};

use std::marker::Model;

/// How many calls of a machine were made with it. A count that stands at its last value stays there.
#[derive(Drop)]
pub struct Tally {
    posts: u64,
    touches: u64,
    works: u64,
    outboxes: u64,
}

impl Model for Tally {
    ghost use Rattle.xfs_machine.specs.Tallies.{TallyView};

    ghost Value = { TallyView };

    ghost view = { λ t. record { posts = t.posts; touches = t.touches; works = t.works; outboxes = t.outboxes } };
}

impl Tally {
    /// No calls were made.
    pub fn new() -> Tally
        ensures { result ≡ record { posts = 0; touches = 0; works = 0; outboxes = 0 } }
    {
        Tally {
            posts: 0,
            touches: 0,
            works: 0,
            outboxes: 0,
        }
    }

    /// The calls of `post`.
    pub fn posts(&self) -> u64
        ensures { result ≡ self.now.posts }
    {
        self.posts
    }

    /// The calls of `touch`.
    pub fn touches(&self) -> u64
        ensures { result ≡ self.now.touches }
    {
        self.touches
    }

    /// The calls of `work`.
    pub fn works(&self) -> u64
        ensures { result ≡ self.now.works }
    {
        self.works
    }

    /// The calls of `outbox`.
    pub fn outboxes(&self) -> u64
        ensures { result ≡ self.now.outboxes }
    {
        self.outboxes
    }

    pub(crate) fn count_post(&mut self)
        ensures { self.new ≡ record self.old { posts = next_count self.old.posts } }
    {
        self.posts = self.posts.saturating_add(1);
    }

    pub(crate) fn count_touch(&mut self)
        ensures { self.new ≡ record self.old { touches = next_count self.old.touches } }
    {
        self.touches = self.touches.saturating_add(1);
    }

    pub(crate) fn count_work(&mut self)
        ensures { self.new ≡ record self.old { works = next_count self.old.works } }
    {
        self.works = self.works.saturating_add(1);
    }

    pub(crate) fn count_outbox(&mut self)
        ensures { self.new ≡ record self.old { outboxes = next_count self.old.outboxes } }
    {
        self.outboxes = self.outboxes.saturating_add(1);
    }
}
