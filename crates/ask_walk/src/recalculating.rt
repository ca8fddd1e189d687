// Recalculations: an object is priced from its inputs, whatever its flags are.
ghost use Rattle.std.specs.Prelude.{◌≡◌, true, false, length, is_some, Some, Ok, Err, IfOk, OnErr};
ghost use Rattle.desk_model.specs.State.{is_late};
ghost use Rattle.object_store.specs.Market.{market_in, state_in, state_after};
ghost use Rattle.object_store.specs.Shape.{IsJoined, role_at};
ghost use Rattle.ask_walk.specs.Reads.{Remembers};
ghost use Rattle.object_store.specs.Scratch.{IsEmpty};
ghost use Rattle.object_store.specs.Store.{registry_of};
ghost use Rattle.ask_walk.specs.Asks.{MayAsk, Stays};
ghost use Rattle.ask_walk.specs.Recalcs.{Recalcs, RecalcEnds, RecalcStops, Reprices, refused_as};

use crate::asking::{Books, answered};
use crate::recalced::Recalced;
use crate::turning::{Turn, begin};
use desk_names::ObjId;
use desk_terms::{Asked, Bench, Mark};
use object_store::{Market, Store};
use std::alloc::AllocError;

impl Books {
    /// Recalculates a lazy object from its inputs, whatever its flags are, and notifies its observers, at once or deferred
    /// (QuantLib's `LazyObject::recalculate`). Does nothing if a deferred source makes the object late.
    ///
    /// # Errors
    ///
    /// `AllocError` where memory runs out. Then inputs that were recomputed keep their values.
    pub fn recalc<B: Bench>(
        &mut self,
        market: &Market,
        object: ObjId,
        bench: &mut B,
    ) -> Result<Recalced, AllocError>
        requires may { MayAsk (B.calc bench.old) (state_in market.now self.old.store) object }
        requires empty { IsEmpty (length market.now.objects) self.old.scratch }
        requires joined { IsJoined (market_in market.now) self.old.store.shape }
        ensures same { B.calc bench.new ≡ B.calc bench.old }
        ensures ends { IfOk result (λ answer. RecalcEnds (B.calc bench.old) object (state_in market.now self.old.store) (state_in market.now self.new.store) answer
            (B.count bench.old) (B.count bench.new) (B.log bench.old) (B.log bench.new)) }
        ensures stops { OnErr result (RecalcStops (B.calc bench.old) object (state_in market.now self.old.store) (state_in market.now self.new.store)
            (B.count bench.old) (B.count bench.new) (B.log bench.old) (B.log bench.new)) }
        ensures stays { Stays (B.calc bench.old) (state_in market.now self.new.store) }
        ensures empty { IsEmpty (length market.now.objects) self.new.scratch }
        ensures shape { self.new.store.shape ≡ self.old.store.shape }
    {
        let store = &mut self.store;
        match store.deferral.late(object) {
            Some(source) => Ok(Recalced::Deferred(source)),
            None => {
                let answer = self.rerun(market, object, bench);
                self.clear();
                Ok(Recalced::Done(answer?))
            }
        }
    }

    // Recalculates an object that is not late.
    fn rerun<B: Bench>(
        &mut self,
        market: &Market,
        object: ObjId,
        bench: &mut B,
    ) -> Result<Asked, AllocError>
        requires may { MayAsk (B.calc bench.old) (state_in market.now self.old.store) object }
        requires early { is_late (state_in market.now self.old.store) object ≡ false }
        requires remembers { Remembers (market_in market.now) self.old.scratch.entries }
        requires joined { IsJoined (market_in market.now) self.old.store.shape }
        ensures same { B.calc bench.new ≡ B.calc bench.old }
        ensures recalcs { IfOk result (λ answer. Recalcs (B.calc bench.old) object (state_in market.now self.old.store) (state_in market.now self.new.store) answer
            (B.count bench.old) (B.count bench.new) (B.log bench.old) (B.log bench.new)) }
        ensures stops { OnErr result (RecalcStops (B.calc bench.old) object (state_in market.now self.old.store) (state_in market.now self.new.store)
            (B.count bench.old) (B.count bench.new) (B.log bench.old) (B.log bench.new)) }
        ensures stays { Stays (B.calc bench.old) (state_in market.now self.new.store) }
        ensures shape { self.new.store.shape ≡ self.old.store.shape }
        ensures long { length self.new.scratch.entries ≡ length market.now.objects }
    {
        let answer = self.reprice(market, object, bench)?;
        outdate_refused(&mut self.store, object, answer.cause.is_some());
        self.store.changed(object);
        Ok(answer)
    }

    // Prices a lazy object from its inputs, of which those without a usable value are asked first. Stores a value, and notifies
    // nobody.
    fn reprice<B: Bench>(
        &mut self,
        market: &Market,
        object: ObjId,
        bench: &mut B,
    ) -> Result<Asked, AllocError>
        requires may { MayAsk (B.calc bench.old) (state_in market.now self.old.store) object }
        requires early { is_late (state_in market.now self.old.store) object ≡ false }
        requires remembers { Remembers (market_in market.now) self.old.scratch.entries }
        requires joined { IsJoined (market_in market.now) self.old.store.shape }
        ensures same { B.calc bench.new ≡ B.calc bench.old }
        ensures reprices { IfOk result (λ answer. Reprices (B.calc bench.old) object (state_in market.now self.old.store) self.new.store.kept answer
            (B.count bench.old) (B.count bench.new) (B.log bench.old) (B.log bench.new)) }
        ensures stops { OnErr result (RecalcStops (B.calc bench.old) object (state_in market.now self.old.store) (state_after market.now self.old.store self.new.store)
            (B.count bench.old) (B.count bench.new) (B.log bench.old) (B.log bench.new)) }
        ensures stays { OnErr result (Stays (B.calc bench.old) (state_after market.now self.old.store self.new.store)) }
        ensures shape { self.new.store.shape ≡ self.old.store.shape }
        ensures registry { registry_of self.new.store ≡ registry_of self.old.store }
        ensures long { length self.new.scratch.entries ≡ length market.now.objects }
    {
        let mut top = begin(object);
        let mut runs: u64 = 0;
        loop {
            match self.turn(market, &mut top, bench)? {
                Turn::Stops(cause) => return Ok(answered(Some(cause), Mark::Recalc, runs)),
                Turn::Waits(needed) => {
                    let answer = self.walk(market, needed, Mark::Recalc, bench)?;
                    runs += answer.runs;
                    if answer.cause.is_some() {
                        return Ok(answered(answer.cause, Mark::Recalc, runs));
                    }
                }
                Turn::Ran(cause) => return Ok(answered(cause, Mark::Recalc, runs + 1)),
            }
        }
    }
}

// Marks an object as out of date if it was refused.
fn outdate_refused(store: &mut Store, object: ObjId, refused: bool)
    requires { is_some (role_at store.old.shape object) ≡ true }
    ensures { store.new ≡ refused_as object refused store.old }
{
    if refused {
        store.deferral.graph.outdate(object);
    }
}
