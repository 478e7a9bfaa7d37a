//! How many program points a graph has.
ghost use Rattle.std.specs.Prelude.{◌≡◌};
ghost use Rattle.bt_command.specs.Generated.{node_count};
ghost use Rattle.transfer_rules.specs.Give.{is_counted};

use abs_state::Key;

/// Whether a key is that of a program point.
fn is_node(key: &Key) -> bool
    ensures { result ≡ is_counted key.now }
{
    match key {
        Key::Node(_) => true,
        _ => false,
    }
}

/// How many program points there are among keys.
pub fn node_count(keys: &[Key]) -> usize
    ensures { result ≡ node_count keys.now }
{
    keys.iter().filter(|key| is_node(key)).count()
}
