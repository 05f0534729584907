// Which terms initial knowledge and steps have shown: the names in them are used.
ghost use Rattle.protocol.specs.Stepping.{ShowsGiven, ShowsUsed};

use crate::protocol::Protocol;
use freshness::mark_given;
use terms::Marks;

impl Protocol {
    // The terms that instructions of some script give.
    fn given(&self) -> Marks<512>
        ensures { ShowsGiven self.now result }
    {
        let mut marks = Marks::none();
        for script in self.scripts.as_slice() {
            mark_given(script, &mut marks);
        }
        marks
    }

    // These, and the messages of the granted steps.
    pub(super) fn shown(&self) -> Marks<512>
        ensures { ShowsUsed self.now result }
    {
        let mut marks = self.given();
        for step in self.steps.as_slice() {
            marks.insert(step.message);
        }
        marks
    }
}
