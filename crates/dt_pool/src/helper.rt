ghost use Rattle.std.specs.Prelude.{◌≡◌, Some, slice_get};
ghost use Rattle.dt_pool.specs.Links.{name_of_outlet};

use crate::lending::Lending;
use crate::lent::{Lent, Worked};
use crate::link::{Link, compare, remember};
use crate::wait::{next, stuck};
use rtrb::{Consumer, Producer, RingBuffer};
use std::alloc::{AllocError, Global};
use std::marker::Model;
use std::snapshot::Snapshot;
use std::sync::{Arc, Wait};
use std::thread::Parker;

/// By which a helper and its lender wake each other.
#[derive(Drop)]
struct Bells {
    lender: Parker,
    helper: Parker,
}

/// The lender's side of a helper, which works in a thread of its own ([`Server`]) what is lent to it, one item at a time.
///
/// Contracts see the item that was last lent to it, as it was then.
pub struct Helper<X, N: Lending<X>> {
    asks: Producer<Snapshot<X>>,
    /// The other end of that ring, while nothing is lent.
    was: Option<Consumer<Snapshot<X>>>,
    number: usize,
    jobs: Producer<Option<Lent<X, N>>>,
    done: Consumer<Worked<X, N>>,
    bells: Arc<Bells>,
}

impl<X, N: Lending<X>> Model for Helper<X, N> {
    ghost use Rattle.std.specs.Prelude.{◌≡◌, IfSome, Option, Some, slice_get};
    ghost use Rattle.rtrb.specs.Ring.{IsPair, sent};
    ghost use Rattle.dt_pool.specs.Links.{last_item, name_of_outlet};

    ghost Value = { Option X };

    ghost view = { λ h. last_item (sent h.asks) };

    ghost invariant = { λ h. (slice_get N.links h.number ≡ Some (name_of_outlet h.asks)) × IfSome h.was (IsPair h.asks) };
}

impl<X: Drop, N: Lending<X>> Helper<X, N> {
    /// Lends it an item. It waits forever where the last one was not taken back.
    pub fn lend<R: Wait>(&mut self, rt: &R, item: X)
        requires { N.can item }
        ensures { self.new ≡ Some item }
    {
        let Some(mut was) = self.was.take() else {
            return stuck(rt);
        };
        remember(rt, &mut self.asks, &mut was, &item);
        let lent = Lent::new(item, was, self.number);
        if self.jobs.push(Some(lent)).is_err() {
            stuck(rt);
        }
        self.bells.helper.unpark();
    }

    /// Takes back what was lent to it, once it is worked.
    pub fn take_back<R: Wait>(&mut self, rt: &R) -> X
        ensures same { self.new ≡ self.old }
        ensures goes { (old : _) → self.old ≡ Some old → N.goes old result }
    {
        let worked = next(rt, &mut self.done, &self.bells.lender);
        let Worked {
            item,
            was,
            number,
            of: _,
        } = worked;
        let mut was = was;
        if number != self.number {
            stuck(rt);
        }
        compare(rt, &mut self.asks, &mut was);
        self.was = Some(was);
        item
    }
}

impl<X: Drop, N: Lending<X>> Drop for Helper<X, N> {
    fn drop(self) {
        let Self {
            asks: _asks,
            was: _was,
            number: _,
            jobs,
            done: _done,
            bells,
        } = self;
        let mut jobs = jobs;
        let _full = jobs.push(None);
        bells.helper.unpark();
    }
}

/// A helper's own side, which goes to its thread.
#[derive(Drop)]
pub struct Server<X, N: Lending<X>> {
    jobs: Consumer<Option<Lent<X, N>>>,
    done: Producer<Worked<X, N>>,
    bells: Arc<Bells>,
}

impl<X: Drop, N: Lending<X>> Server<X, N> {
    /// Works what is lent to it, until the lender's side is dropped.
    pub fn serve<F: Fn(&mut X), R: Wait>(self, rt: &R, work: &F)
        requires can { (p : _) → N.can p.now → F.pre work.now p }
        requires goes { (p q : _) → F.post work.now p tt q → N.goes p.now q.now }
    {
        let Server {
            mut jobs,
            mut done,
            bells,
        } = self;
        for _ in rt.forever() {
            let Some(lent) = next(rt, &mut jobs, &bells.helper) else {
                return;
            };
            if done.push(lent.work(work)).is_err() {
                return;
            }
            bells.lender.unpark();
        }
    }
}

/// The two sides of a new helper, which is told by its number and its link.
pub fn hire<X: Drop, N: Lending<X>>(
    alloc: Global,
    link: Link<X>,
    number: usize,
) -> Result<(Helper<X, N>, Server<X, N>), AllocError>
    requires { slice_get N.links number ≡ Some link }
{
    let (jobs, theirs) = RingBuffer::new(alloc, 2)?;
    let (back, done) = RingBuffer::new(alloc, 2)?;
    let bells = Arc::new(
        alloc,
        Bells {
            lender: Parker::new(),
            helper: Parker::new(),
        },
    )?;
    let shared = Arc::try_clone(&bells)?;
    let Link { asks, was } = link;
    let helper = Helper {
        asks,
        was: Some(was),
        number,
        jobs,
        done,
        bells,
    };
    let server = Server {
        jobs: theirs,
        done: back,
        bells: shared,
    };
    Ok((helper, server))
}
