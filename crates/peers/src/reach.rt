// Whether a client's broadcast reaches anybody.

ghost use Rattle.std.specs.Prelude.{◌≡◌, true};
ghost use Rattle.peers.specs.Passing.{HasSeenMore, IsForNobody, with_pass};

use crate::context::Context;
use crate::peer::Peer;
use message_view::View;
use outbox::Counts;
use router::{BusBrand, Mailbox};
use std::sync::Wait;

impl<B: BusBrand, M: Mailbox> Peer<B, M> {
    /// Whether this message, stamped with the client's name, is for nobody, after a history that begins with what the pass had
    /// seen, and is seen then. Most broadcasts are, and needn't be stamped. If the bus doesn't tell, or somebody watches it, the
    /// answer is false; also where the client's last broadcast was for somebody, since a look is then most often in vain.
    pub(crate) fn reaches_nobody<W: Wait, R: Wait + Drop>(
        &mut self,
        context: &Context<'_, B, M, W, R>,
        view: &View<'_>,
    ) -> bool
        ensures nobody { result ≡ true → IsForNobody view.now self.old self.new.pass }
        ensures later { HasSeenMore self.old.pass self.new.pass }
        ensures same { self.new ≡ with_pass self.old self.new.pass }
    {
        if self.was_heard || !context.bus.monitors().is_empty() {
            return false;
        }
        let reaches_nobody = self.is_for_nobody(view);
        if reaches_nobody {
            self.own.tally().add(Counts {
                broadcasts: 1,
                ..Counts::none()
            });
        }
        reaches_nobody
    }

    fn is_for_nobody(&mut self, view: &View<'_>) -> bool
        ensures nobody { result ≡ true → IsForNobody view.now self.old self.new.pass }
        ensures later { HasSeenMore self.old.pass self.new.pass }
        ensures same { self.new ≡ with_pass self.old self.new.pass }
    {
        match self.pass.may_reach(view, self.name.as_str()) {
            Ok(may_reach) => !may_reach,
            Err(_) => false,
        }
    }
}
