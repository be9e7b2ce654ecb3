// The rule that an item is put to.
ghost use Rattle.std.specs.Prelude.{◌≡◌};
ghost use Rattle.base_rules.specs.Verdicts.{base_rule};
ghost use Rattle.item_commands.specs.Rules.{rule_named, header_named};

use base_rules::{BaseRule, Kind};
use item::Header;

// The rule that a header names, and the header as that rule has it.
pub fn named_rule(header: Header) -> (BaseRule, Header)
    ensures rule { base_rule result.0.kind ≡ rule_named header }
    ensures header { result.1 ≡ header_named header }
{
    match header.rule.checked_sub(1) {
        None => (BaseRule::new(Kind::Plain), header),
        Some(rule) => (BaseRule::new(Kind::Backlog), Header { rule, ..header }),
    }
}
