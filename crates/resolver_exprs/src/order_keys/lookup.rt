//! The result column of a name.
ghost use Rattle.std.specs.Prelude.{◌≡◌, ◌≤◌, ◌∷◌, [], drop, length, map, string_bytes, suc, ◌<◌, ⊤, MatchOption};
ghost use Rattle.semantics_names.specs.Statement as spec;
ghost use Rattle.resolver_exprs.specs.order_keys.Named.{only_one};
ghost use Rattle.resolver_terms.specs.Outcome.{Gives};

use values::Fault;

// The place of the first result column of this name, from this place on.
fn next_named(names: &[String], from: usize, name: &str) -> Option<usize>
    requires { from ≤ length names.now }
    ensures next { let all = spec.named_at name.now from (map (λ n. string_bytes n) (drop from names.now)) in
        MatchOption result (all ≡ [])
        (λ at. all ≡ at ∷ spec.named_at name.now (suc at) (map (λ n. string_bytes n) (drop (suc at) names.now))) }
    ensures within { MatchOption result ⊤ (λ at. at < length names.now) }
{
    for at in from..names.len() {
        if names[at].as_str().eq_ignore_ascii_case(name) {
            return Some(at);
        }
    }
    None
}

/// The place of the one result column of this name, if there is one. The fault is `Ambiguous` where there are two. (SELECT, "The
/// ORDER BY clause")
pub(crate) fn named(names: &[String], name: &str) -> Result<Option<usize>, Fault>
    ensures { Gives (λ at. at) result (only_one (spec.named_at name.now 0 (map (λ n. string_bytes n) names.now))) }
{
    let Some(at) = next_named(names, 0, name) else {
        return Ok(None);
    };
    if next_named(names, at + 1, name).is_some() {
        return Err(Fault::Ambiguous);
    }
    Ok(Some(at))
}
