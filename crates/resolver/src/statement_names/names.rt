//! Names of which no two are the same.
ghost use Rattle.std.specs.Prelude.{◌≡◌, map, string_bytes};
ghost use Rattle.semantics_names.specs.Statement as spec;

fn is_among(name: &str, names: &[String]) -> bool
    ensures { result ≡ spec.is_among name.now (map (λ n. string_bytes n) names.now) }
{
    for other in names {
        if other.as_str().eq_ignore_ascii_case(name) {
            return true;
        }
    }
    false
}

/// Whether no two of the names are the same. (SELECT, "Common Table Expressions")
pub(crate) fn are_distinct(names: &[String]) -> bool
    ensures { result ≡ spec.are_distinct (map (λ n. string_bytes n) names.now) }
{
    for at in 0..names.len() {
        if is_among(names[at].as_str(), &names[at + 1..]) {
            return false;
        }
    }
    true
}
