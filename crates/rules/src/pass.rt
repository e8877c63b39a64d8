// One pass over the rules: which one decides a service of a pair, and how far it does so.
ghost use Rattle.std.specs.Option.{option_copied};
ghost use Rattle.line.specs.Line.{Keeps};
ghost use Rattle.service.specs.Spans.{place_of};
ghost use Rattle.rules.specs.Decisions.{decider};

use crate::{Pair, Rule};
use line::{Point, earlier, last_before};
use service::Service;

// The first rule in force that covers the pair and has `service`, and a service up to which it is that one. The work grows with the number of rules.
pub(crate) fn deciding<'r>(
    rules: &'r [Rule],
    pair: Pair,
    service: &Service,
) -> (Option<&'r Rule>, Service)
    ensures { Keeps (decider rules.now pair.from pair.to) (option_copied result.0) (place_of service.now) (place_of result.1) }
{
    let mut end = Service::last();
    for rule in rules {
        if rule.applies(pair) {
            let first = rule.span.first();
            let last = rule.span.last();
            if service < &first {
                end = last_before(&first, &end);
            } else if service <= &last {
                return (Some(rule), earlier(&last, &end));
            }
        }
    }
    (None, end)
}
