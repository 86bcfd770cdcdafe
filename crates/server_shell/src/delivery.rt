//! What becomes of the replies of a batch.
ghost use Rattle.std.specs.Prelude.{◌≡◌, ◌≢◌, ◌+◌, ◌-◌, ◌^◌, min, List, [], length, IfErr, OnOk, OnErr};
ghost use Rattle.vg_base.specs.declared.refused.Refused.{Refused};
ghost use Rattle.vg_io.specs.declared.source.Failed.{Failed};
ghost use Rattle.server_shell.specs.Delivery.{Delivery, IsLawful, counted_replies, faults_of};

use vg_base::Refused;
use vg_io::Failed;

/// A way to hand over the replies of a batch.
pub trait Delivers<R, O> {
    /// What becomes of replies.
    ghost delivery: { Delivery O R };

    /// Hands the replies over, in their order, and shows them where there are any. At a failure a
    /// front of them was taken.
    fn deliver(&self, out: &mut O, replies: &[R]) -> Result<(), Refused<Failed>>
        ensures whole { OnOk result (delivery.takes out.old out.new replies.now) }
        ensures front { OnErr result (delivery.begins out.old out.new replies.now) }
        ensures shown { OnOk result (replies.now ≢ [] → delivery.shows out.new) }
        ensures kept { OnOk result (delivery.shows out.old → delivery.shows out.new) }
        ensures faults { delivery.faults out.new ≡ faults_of result (delivery.faults out.old) };

    ghost lawful: { IsLawful delivery };
}

/// Counts replies.
#[derive(Clone, Copy, Drop, Debug)]
pub struct Counting;

impl<R> Delivers<R, u64> for Counting {
    ghost use Rattle.server_shell.specs.code.Lawful.{counting_is_lawful};

    ghost delivery = { counted_replies };

    ghost lawful = { counting_is_lawful };

    fn deliver(&self, out: &mut u64, replies: &[R]) -> Result<(), Refused<Failed>> {
        *out = out.saturating_add(replies.len() as u64);
        Ok(())
    }
}
