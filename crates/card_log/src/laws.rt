// Names the law of a log that is served in pieces, so that it is proved; the function does nothing.
ghost use Rattle.card_log.specs.Joining.{JoinLaws};

use panel::Panel;

// To serve one log and then another is to serve both joined.
pub fn join_laws<P: Panel>()
    ensures { JoinLaws P.Panel.make }
{}
