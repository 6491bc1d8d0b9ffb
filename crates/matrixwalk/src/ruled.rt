// The form of some words with its rule.
ghost use Rattle.std.specs.Prelude.{◌≡◌, ◌≤◌, true};
ghost use Rattle.rule.specs.Rules.{allowed, rule_of};

use rule::rules::{Form, Rule};

// A form whose length is allowed, and the rule of its words: bytes are held against the rule, and of a whole word the form's check is asked.
#[derive(Clone, Copy)]
pub(crate) struct Ruled {
    pub form: Form,
    pub rule: Rule,
    ghost allowed: { allowed form.mapped form.length ≡ true },
    ghost formed: { rule ≡ rule_of form },
    ghost short: { rule.length ≤ 8 },
}
