// What a step writes into the three scripts.
ghost use Rattle.std.specs.Prelude.{◌≡◌, ◌<◌, [], length, slice_index_or};
ghost use Rattle.effects.specs.Sending.{Sends};
ghost use Rattle.rules.specs.State.{fresh_names};
ghost use Rattle.terms.specs.Listed.{listed};
ghost use Rattle.terms.specs.Tree.{tree};
ghost use Rattle.protocol.specs.Delivering.{Delivers, refused_send};
ghost use Rattle.protocol.specs.Stepping.{Addressed};
ghost use Rattle.protocol.specs.View.{lines_of, view_of};

use crate::protocol::Protocol;
use crate::refusal::Refusal;
use crate::step::{Agent, Delivery, LISTENER};
use effects::{overhear, receive, send};
use freshness::fresh_names;
use scripts::{Script, ScriptError, Slot};
use terms::TermId;

// The scripts of a step's sender, its receiver and the listener after it.
#[derive(Clone, Copy)]
pub(super) struct Delivered {
    pub(super) sent: Script,
    pub(super) received: Script,
    pub(super) heard: Script,
}

// A message that cannot be composed is unmakeable for want of the missing term; else there is no room.
fn refused_send(error: ScriptError, sender: Agent) -> Refusal
    ensures { result ≡ refused_send error sender }
{
    match error {
        ScriptError::Missing(term) => Refusal::Unmakeable(term),
        ScriptError::Full => Refusal::ScriptFull(sender),
    }
}

impl Protocol {
    // The sender's script after it sent the message, with the names that are fresh there.
    fn sent(&self, sender: Agent, message: TermId, address: Slot) -> Result<Script, ScriptError>
        requires agent { sender < length (lines_of self.now) }
        requires term { message < length (listed self.now.terms) }
        ensures { Sends (listed self.now.terms) (slice_index_or (view_of self.now).scripts sender []) (fresh_names (view_of self.now) (tree (listed self.now.terms) message)) (tree (listed self.now.terms) message) address result }
    {
        let fresh = fresh_names(&self.terms, &self.shown(), message);
        send(
            &self.scripts.as_slice()[sender],
            &self.terms,
            &fresh,
            message,
            address,
        )
    }

    // The three scripts after a step whose first tests passed.
    pub(super) fn deliver(
        &self,
        sender: Agent,
        receiver: Agent,
        message: TermId,
        delivery: Delivery,
    ) -> Result<Delivered, Refusal>
        requires addressed { Addressed self.now sender receiver message delivery }
        ensures { Delivers self.now sender receiver message result }
    {
        let scripts = self.scripts.as_slice();
        let sent = self
            .sent(sender, message, delivery.address)
            .map_err(|error| refused_send(error, sender))?;
        let received = receive(&scripts[receiver], &self.terms, delivery.from, message).map_err(
            |_| Refusal::ScriptFull(receiver),
        )?;
        let heard = overhear(
            &scripts[LISTENER],
            &self.terms,
            delivery.from,
            delivery.to,
            message,
        )
        .map_err(|_| Refusal::ScriptFull(LISTENER))?;
        Ok(Delivered {
            sent,
            received,
            heard,
        })
    }
}
