// Verdicts: the lowest entry whose range holds any byte of an access decides on it.
ghost use Rattle.std.specs.Prelude.{◌≡◌, ◌<◌, IfSome, length, position};
ghost use Rattle.bank.specs.Laws.{LowestDecides};
ghost use Rattle.bank.specs.Privilege.{privilege_number};
ghost use Rattle.bank.specs.Ranges.{range_of};
ghost use Rattle.bank.specs.Verdicts.{covers as covered, deciding, judged, meets as met, span_asked, verdict_of};

use crate::bank::Bank;
use crate::entries::locked;
use crate::extent::Extent;
use crate::index::Index;
use crate::laws;
use crate::privilege::Privilege;
use crate::ranges::END;
use crate::verdict::{Kind, Verdict};
use refusals::Refusal;

impl Bank {
    // The verdict on an access of some bytes from an address on. Privilege and kind are numbers:
    // any are accepted, and refused here.
    pub fn verdict(
        &self,
        privilege: u64,
        kind: u64,
        address: u64,
        size: u64,
    ) -> Result<Verdict, Refusal>
        ensures answer { result ≡ verdict_of self.now privilege kind address size }
        ensures lowest { LowestDecides }
    {
        laws::lowest_decides();
        let privilege = Privilege::try_from(privilege)?;
        let kind = Kind::try_from(kind)?;
        let span = span_of(address, size)?;
        Ok(self.judge(privilege, kind, span))
    }

    // The verdict of the deciding entry, or of none.
    fn judge(&self, privilege: Privilege, kind: Kind, span: (u64, u64)) -> Verdict
        ensures { result ≡ judged self.now (privilege_number privilege) kind span (deciding self.now span) }
    {
        let Some(i) = self.decider(span) else {
            return if privilege.is_machine() {
                Verdict::Allowed(None)
            } else {
                Verdict::Fault(None, kind.cause())
            };
        };
        let index = Index { n: i };
        if !self.covers(index, span) {
            return Verdict::Fault(Some(i), kind.cause());
        }
        let byte = self.entries.config(index);
        if privilege.is_machine() && !locked(byte) {
            return Verdict::Allowed(Some(i));
        }
        if byte & kind.needed() == 0 {
            return Verdict::Fault(Some(i), kind.cause());
        }
        Verdict::Allowed(Some(i))
    }

    // The lowest entry whose range holds any byte of the span.
    fn decider(&self, span: (u64, u64)) -> Option<usize>
        ensures answer { result ≡ deciding self.now span }
        ensures within { IfSome result (λ i. i < 16) }
    {
        first_met(&self.ranges, span)
    }

    // Whether the range of entry i holds every byte of the span.
    fn covers(&self, i: Index, span: (u64, u64)) -> bool
        ensures { result ≡ covered (range_of self.now i) span }
    {
        self.ranges[i.n].covers(span)
    }
}

// Where the first of the ranges is that holds some byte of a span.
fn first_met(ranges: &[Extent], span: (u64, u64)) -> Option<usize>
    ensures at { result ≡ position (λ o. met o span) ranges.now }
    ensures within { IfSome result (λ i. i < length ranges.now) }
{
    ranges.iter().position(|range| range.meets(span))
}

// The bytes from an address on: the first, and the one after the last.
fn span_of(address: u64, size: u64) -> Result<(u64, u64), Refusal>
    ensures { result ≡ span_asked address size }
{
    match size {
        1 | 2 | 4 | 8 if address > END - size => Err(Refusal::Span),
        1 | 2 | 4 | 8 => Ok((address, address + size)),
        _ => Err(Refusal::Size),
    }
}
