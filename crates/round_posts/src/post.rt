// The two ends of a parker: each keeps the number that its pass of the parker holds.
ghost use Rattle.std.specs.Prelude.{◌≡◌, ◌+◌, ◌-◌, ◌^◌, ◌<◌, IfOk};

use crate::law::{Law, Parts, Posts, Takes, Tally};
use crate::token::Token;
use bq_model::OutOfMemory;
use crossbeam_utils::sync::parker::{Pass, RuledParker, RuledUnparker};
use std::alloc::Global;
use std::marker::Model;
use std::sync::Wait;

/// The end that wakes a worker: how often it has posted.
#[derive(Drop)]
pub struct Poster {
    unparker: RuledUnparker<Tally, Law>,
    pass: Pass<Tally>,
    posts: u64,
}

impl Model for Poster {
    ghost use Rattle.std.specs.Prelude.{ℕ, ◌≡◌};
    ghost use Rattle.std.specs.Arc.{arc_value};
    ghost use Rattle.crossbeam_utils.specs.Token.{parker_view};
    ghost use Rattle.round_posts.specs.Law.{tally};

    ghost Value = { ℕ };

    ghost view = { λ p. p.posts };

    ghost invariant = { λ p. (p.pass.table_id ≡ (arc_value p.unparker.state).shared.table_id) × (parker_view p.pass ≡ tally p.posts 0) };
}

/// The end on which a worker sleeps: the worker's number, and how often it has taken.
#[derive(Drop)]
pub struct Taker {
    parker: RuledParker<Tally, Law>,
    pass: Pass<Tally>,
    worker: u32,
    takes: u64,
}

impl Model for Taker {
    ghost use Rattle.std.specs.Prelude.{◌≡◌};
    ghost use Rattle.std.specs.Arc.{arc_value};
    ghost use Rattle.crossbeam_utils.specs.Token.{parker_view};
    ghost use Rattle.round_posts.specs.Law.{tally};
    ghost use Rattle.round_posts.specs.Taking.{Taking};

    ghost Value = { Taking };

    ghost view = { λ t. record { worker = t.worker; takes = t.takes } };

    ghost invariant = { λ t. (t.pass.table_id ≡ (arc_value t.parker.unparker.state).shared.table_id) × (parker_view t.pass ≡ tally 0 t.takes) };
}

/// The two ends of a new parker, for a worker of this number.
pub fn station(alloc: Global, worker: u32) -> Result<(Poster, Taker), OutOfMemory>
    ensures poster { IfOk result (λ ends. ends.0 ≡ 0) }
    ensures taker { IfOk result (λ ends. ends.1 ≡ record { worker = worker; takes = 0 }) }
{
    let (parker, mut pass) = RuledParker::<Tally, Law>::ruled(alloc)?;
    let unparker = parker.unparker().clone()?;
    let taking = unparker.split_pass::<Parts>(&mut pass);
    let poster = Poster {
        unparker,
        pass,
        posts: 0,
    };
    let taker = Taker {
        parker,
        pass: taking,
        worker,
        takes: 0,
    };
    Ok((poster, taker))
}

impl Poster {
    /// Wakes the worker. Posts that it has not taken yet are one token together.
    pub fn post(&mut self)
        requires { self.old < 2 ^ 64 - 1 }
        ensures { self.new ≡ self.old + 1 }
    {
        self.unparker.unpark_as::<Posts>(&mut self.pass);
        self.posts += 1;
    }
}

impl Taker {
    /// Sleeps until a post is there, and takes it.
    pub fn take<R: Wait>(&mut self, rt: &R) -> Token
        requires { self.old.takes < 2 ^ 64 - 1 }
        ensures taken { self.new ≡ record { worker = self.old.worker; takes = self.old.takes + 1 } }
        ensures token { result ≡ record { worker = self.old.worker; number = self.old.takes } }
    {
        self.parker.park_as::<Takes, R>(rt, &mut self.pass);
        let number = self.takes;
        self.takes += 1;
        Token::new(self.worker, number)
    }
}
