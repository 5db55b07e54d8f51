//! A thread that waits for its order.
ghost use Rattle.std.specs.Prelude.{◌≡◌, [], ◌∷◌, ◌++◌, IfOk, None};
ghost use Rattle.kept_threads.specs.declared.order.Order.TheVariants.{Work};
ghost use Rattle.kept_threads.specs.Obeyed.{Obeys};

use crate::order::{Job, Order};
use drive_line::{WireIn, WireOut, close_wire, new_wire};
use nc_number::NoMemory;
use std::alloc::Global;
use std::marker::Model;
use std::snapshot::Snapshot;
use std::sync::Wait;
use std::thread::{Promise, PromisedHandle, Scope, Threads};

/// What a thread gives back.
#[derive(Drop)]
struct Rested<R: Wait, J: Job<R>> {
    /// The end at which it took its order.
    orders: WireOut<Order<J>>,
    /// What its job came to, if it was told one.
    done: Option<J::Done>,
}

/// That a thread took one order at this end, and did as it says.
#[derive(Drop)]
struct Obeying<J: Drop>(Snapshot<WireOut<Order<J>>>);

impl<R: Wait, J: Job<R>> Promise<Rested<R, J>> for Obeying<J> {
    ghost use Rattle.std.specs.Prelude.{◌≡◌, [], ◌∷◌};
    ghost use Rattle.kept_threads.specs.Obeyed.{Obeys};
    ghost use Rattle.kept_threads.specs.declared.order.Order.{Order};

    ghost kept_by = { λ p r. (r.orders.wire ≡ p.0.value.wire)
        × ((o : Order J) × (r.orders.items ≡ o ∷ []) × Obeys J.does o r.done) };
}

/// What the thread does: it waits for its order, and does as it says. At home it gives back `none`.
fn obey<R: Wait, J: Job<R>>(
    rt: &R,
    orders: WireOut<Order<J>>,
    none: Option<J::Done>,
) -> Rested<R, J>
    requires { (orders.items ≡ []) × (none ≡ None) }
    ensures wire { result.orders.wire ≡ orders.wire }
    ensures obeys { (o : _) × (result.orders.items ≡ o ∷ []) × Obeys J.does o result.done }
{
    let mut orders = orders;
    match orders.take(rt) {
        Order::Work(job) => Rested {
            done: Some(job.work(rt)),
            orders,
        },
        Order::Home => Rested { done: none, orders },
    }
}

/// A thread that waits for its order. It means the orders that it was told.
///
/// It is to be told one: until then it waits, and so does the end of its scope.
#[derive(Drop)]
pub struct Kept<R: Wait, J: Job<R>> {
    /// The end at which it is told.
    orders: WireIn<Order<J>>,
    /// The thread.
    thread: PromisedHandle<Rested<R, J>, Obeying<J>>,
}

impl<R: Wait, J: Job<R>> Model for Kept<R, J> {
    ghost use Rattle.std.specs.Prelude.{◌≡◌, List};
    ghost use Rattle.kept_threads.specs.declared.order.Order.{Order};

    ghost Value = { List (Order J) };

    ghost view = { λ k. k.orders.items };

    ghost invariant = { λ k. k.orders.wire ≡ k.thread.promise.0.value.wire };
}

/// A thread of the scope that waits for its order. The only error is that the system refused it, or
/// that memory ran out.
pub fn keep<'s, E, R, J>(
    rt: &'s R,
    alloc: Global,
    scope: &Scope<'s, E>,
) -> Result<Kept<R, J>, NoMemory>
where
    R: Threads + Wait + Sync + 's,
    J: Job<R> + Send + 's,
    J::Done: Send + 's,
    ensures { IfOk result (λ k. k ≡ []) }
{
    let (to, orders) = new_wire::<Order<J>>(alloc, 1)?;
    let promise = Obeying(Snapshot::of(&orders));
    // The borrow checker asks that what the thread gets names all that it gives.
    let none: Option<J::Done> = None;
    let thread = scope.spawn_with(
        promise,
        move || -> Rested<R, J>
            requires { (orders.items ≡ []) × (none ≡ None) }
            ensures wire { result.orders.wire ≡ orders.wire }
            ensures obeys { (o : _) × (result.orders.items ≡ o ∷ []) × Obeys J.does o result.done }
        { obey(rt, orders, none) },
    );
    match thread {
        Ok(thread) => Ok(Kept { orders: to, thread }),
        Err(_) => Err(NoMemory),
    }
}

impl<R: Threads + Wait, J: Job<R>> Kept<R, J> {
    /// Tells the thread what to do.
    pub fn tell(&mut self, rt: &R, order: Order<J>)
        ensures { self.new ≡ self.old ++ order ∷ [] }
    {
        self.orders.send(rt, order);
    }

    /// Waits until the thread has done what it was told, and gives back what that came to.
    fn rest(self, rt: &R) -> Option<J::Done>
        requires { (o : _) × (self ≡ o ∷ []) }
        ensures { (o : _) → self ≡ o ∷ [] → Obeys J.does o result }
    {
        let Kept { orders, thread } = self;
        let Rested {
            orders: taken,
            done,
        } = thread.join(rt);
        close_wire(orders, taken);
        done
    }

    /// Waits until the thread has done the job that it was told, and gives back what that came to.
    pub fn finish(self, rt: &R) -> J::Done
        requires { (job : _) × (self ≡ Work job ∷ []) }
        ensures { (job : _) → self ≡ Work job ∷ [] → J.does job result }
    {
        match self.rest(rt) {
            Some(done) => done,
            None => unreachable!(),
        }
    }

    /// Tells a thread that was told nothing to go home, and waits until it has.
    pub fn dismiss(self, rt: &R)
        requires { self ≡ [] }
    {
        let mut thread = self;
        thread.tell(rt, Order::Home);
        thread.rest(rt);
    }
}
