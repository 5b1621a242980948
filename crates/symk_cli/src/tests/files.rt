//! The task files of the worked examples.

/// A switch that is turned on.
pub const ONE_SWITCH: &[u8] =
    b"begin_version\n3\nend_version\nbegin_metric\n0\nend_metric\n1\nbegin_variable\nvar0\n-1\n2\noff\non\nend_variable\n0\nbegin_state\n0\nend_state\nbegin_goal\n1\n0 1\nend_goal\n1\nbegin_operator\nswitch-on\n0\n1\n0 0 0 1\n1\nend_operator\n0\n";

/// A switch that is turned on and off.
pub const SWITCH_AND_BACK: &[u8] =
    b"begin_version\n3\nend_version\nbegin_metric\n0\nend_metric\n1\nbegin_variable\nvar0\n-1\n2\noff\non\nend_variable\n0\nbegin_state\n0\nend_state\nbegin_goal\n1\n0 1\nend_goal\n2\nbegin_operator\nswitch-on\n0\n1\n0 0 0 1\n1\nend_operator\nbegin_operator\nswitch-off\n0\n1\n0 0 1 0\n1\nend_operator\n0\n";

/// Two switches, in either order.
pub const TWO_SWITCHES: &[u8] =
    b"begin_version\n3\nend_version\nbegin_metric\n0\nend_metric\n2\nbegin_variable\na\n-1\n2\noff\non\nend_variable\nbegin_variable\nb\n-1\n2\noff\non\nend_variable\n0\nbegin_state\n0\n0\nend_state\nbegin_goal\n2\n0 1\n1 1\nend_goal\n2\nbegin_operator\na-on\n0\n1\n0 0 0 1\n1\nend_operator\nbegin_operator\nb-on\n0\n1\n0 1 0 1\n1\nend_operator\n0\n";

/// A goal that a rule derives, and that holds from the first step on.
pub const AXIOM: &[u8] =
    b"begin_version\n3\nend_version\nbegin_metric\n0\nend_metric\n2\nbegin_variable\npos\n-1\n3\np0\np1\np2\nend_variable\nbegin_variable\ndone\n0\n2\nno\nyes\nend_variable\n0\nbegin_state\n0\n0\nend_state\nbegin_goal\n1\n1 1\nend_goal\n2\nbegin_operator\nm1\n0\n1\n0 0 0 1\n1\nend_operator\nbegin_operator\nm2\n0\n1\n0 0 1 2\n1\nend_operator\n2\nbegin_rule\n1\n0 1\n1 0 1\nend_rule\nbegin_rule\n1\n0 2\n1 0 1\nend_rule\n";

/// A goal that holds at first, and no operator.
pub const GOAL_AT_START: &[u8] =
    b"begin_version\n3\nend_version\nbegin_metric\n1\nend_metric\n1\nbegin_variable\nvar0\n-1\n2\na\nb\nend_variable\n0\nbegin_state\n0\nend_state\nbegin_goal\n1\n0 0\nend_goal\n0\n0\n";

/// A goal that does not hold, and no operator.
pub const NO_OPERATOR: &[u8] =
    b"begin_version\n3\nend_version\nbegin_metric\n1\nend_metric\n1\nbegin_variable\nvar0\n-1\n2\na\nb\nend_variable\n0\nbegin_state\n0\nend_state\nbegin_goal\n1\n0 1\nend_goal\n0\n0\n";

/// A lamp that goes on and off while the aim is out of reach.
pub const LAMP: &[u8] =
    b"begin_version\n3\nend_version\nbegin_metric\n0\nend_metric\n2\nbegin_variable\naim\n-1\n2\noff\non\nend_variable\nbegin_variable\nlamp\n-1\n2\noff\non\nend_variable\n0\nbegin_state\n0\n0\nend_state\nbegin_goal\n1\n0 1\nend_goal\n2\nbegin_operator\nup\n0\n1\n0 1 0 1\n1\nend_operator\nbegin_operator\ndown\n0\n1\n0 1 1 0\n1\nend_operator\n0\n";

/// A rule to the default value, which has no effect.
pub const DEFAULT_RULE: &[u8] =
    b"begin_version\n3\nend_version\nbegin_metric\n0\nend_metric\n2\nbegin_variable\nx\n-1\n2\nx0\nx1\nend_variable\nbegin_variable\nd\n0\n2\nno\nyes\nend_variable\n0\nbegin_state\n0\n0\nend_state\nbegin_goal\n1\n1 1\nend_goal\n1\nbegin_operator\ngo\n0\n1\n0 0 0 1\n1\nend_operator\n2\nbegin_rule\n1\n0 1\n1 0 1\nend_rule\nbegin_rule\n0\n1 1 0\nend_rule\n";

/// Rules in the wrong order, and a layer above them.
pub const LAYERS: &[u8] =
    b"begin_version\n3\nend_version\nbegin_metric\n0\nend_metric\n4\nbegin_variable\nx\n-1\n2\nx0\nx1\nend_variable\nbegin_variable\nd1\n0\n2\nno\nyes\nend_variable\nbegin_variable\nd2\n0\n2\nno\nyes\nend_variable\nbegin_variable\nd3\n1\n2\nno\nyes\nend_variable\n0\nbegin_state\n0\n0\n0\n0\nend_state\nbegin_goal\n1\n2 1\nend_goal\n1\nbegin_operator\ngo\n0\n1\n0 0 0 1\n1\nend_operator\n3\nbegin_rule\n1\n1 1\n2 0 1\nend_rule\nbegin_rule\n1\n0 1\n1 0 1\nend_rule\nbegin_rule\n1\n2 0\n3 0 1\nend_rule\n";

/// The same with the goal in the layer above.
pub const LAYERS_NEGATION: &[u8] =
    b"begin_version\n3\nend_version\nbegin_metric\n0\nend_metric\n4\nbegin_variable\nx\n-1\n2\nx0\nx1\nend_variable\nbegin_variable\nd1\n0\n2\nno\nyes\nend_variable\nbegin_variable\nd2\n0\n2\nno\nyes\nend_variable\nbegin_variable\nd3\n1\n2\nno\nyes\nend_variable\n0\nbegin_state\n0\n0\n0\n0\nend_state\nbegin_goal\n1\n3 1\nend_goal\n1\nbegin_operator\ngo\n0\n1\n0 0 0 1\n1\nend_operator\n3\nbegin_rule\n1\n1 1\n2 0 1\nend_rule\nbegin_rule\n1\n0 1\n1 0 1\nend_rule\nbegin_rule\n1\n2 0\n3 0 1\nend_rule\n";

/// An operator that costs and changes nothing.
pub const ZERO_COSTS: &[u8] =
    b"begin_version\n3\nend_version\nbegin_metric\n1\nend_metric\n1\nbegin_variable\nx\n-1\n2\nx0\nx1\nend_variable\n0\nbegin_state\n0\nend_state\nbegin_goal\n1\n0 1\nend_goal\n2\nbegin_operator\ngo\n0\n1\n0 0 0 1\n1\nend_operator\nbegin_operator\nidle\n0\n0\n0\nend_operator\n0\n";

/// Two values that are exchanged by conditions on the old state.
pub const SWAP: &[u8] =
    b"begin_version\n3\nend_version\nbegin_metric\n0\nend_metric\n2\nbegin_variable\na\n-1\n2\na0\na1\nend_variable\nbegin_variable\nb\n-1\n2\nb0\nb1\nend_variable\n0\nbegin_state\n1\n0\nend_state\nbegin_goal\n2\n0 0\n1 1\nend_goal\n1\nbegin_operator\nswap\n0\n4\n1 1 0 0 -1 0\n1 1 1 0 -1 1\n1 0 0 1 -1 0\n1 0 1 1 -1 1\n1\nend_operator\n0\n";

/// Two effects on one variable, the goal's first.
pub const LATER_EFFECT: &[u8] =
    b"begin_version\n3\nend_version\nbegin_metric\n0\nend_metric\n1\nbegin_variable\nx\n-1\n2\nx0\nx1\nend_variable\n0\nbegin_state\n0\nend_state\nbegin_goal\n1\n0 1\nend_goal\n1\nbegin_operator\ntwo\n0\n2\n0 0 -1 1\n0 0 -1 0\n1\nend_operator\n0\n";

/// Two effects on one variable, the goal's last.
pub const LATER_EFFECT_WINS: &[u8] =
    b"begin_version\n3\nend_version\nbegin_metric\n0\nend_metric\n1\nbegin_variable\nx\n-1\n2\nx0\nx1\nend_variable\n0\nbegin_state\n0\nend_state\nbegin_goal\n1\n0 1\nend_goal\n1\nbegin_operator\ntwo\n0\n2\n0 0 -1 0\n0 0 -1 1\n1\nend_operator\n0\n";

/// A plan that costs 2^64.
pub const PAST_64_BITS: &[u8] =
    b"begin_version\n3\nend_version\nbegin_metric\n1\nend_metric\n1\nbegin_variable\nx\n-1\n3\nx0\nx1\nx2\nend_variable\n0\nbegin_state\n0\nend_state\nbegin_goal\n1\n0 2\nend_goal\n2\nbegin_operator\nbig\n0\n1\n0 0 0 1\n18446744073709551615\nend_operator\nbegin_operator\none\n0\n1\n0 0 1 2\n1\nend_operator\n0\n";

/// A plan that costs 2^64 - 1.
pub const AT_64_BITS: &[u8] =
    b"begin_version\n3\nend_version\nbegin_metric\n1\nend_metric\n1\nbegin_variable\nx\n-1\n3\nx0\nx1\nx2\nend_variable\n0\nbegin_state\n0\nend_state\nbegin_goal\n1\n0 1\nend_goal\n2\nbegin_operator\nbig\n0\n1\n0 0 0 1\n18446744073709551615\nend_operator\nbegin_operator\none\n0\n1\n0 0 1 2\n1\nend_operator\n0\n";

/// Two plans of great cost.
pub const NEAR_AND_FAR: &[u8] =
    b"begin_version\n3\nend_version\nbegin_metric\n1\nend_metric\n1\nbegin_variable\nx\n-1\n3\nx0\nx1\nx2\nend_variable\n0\nbegin_state\n0\nend_state\nbegin_goal\n1\n0 2\nend_goal\n3\nbegin_operator\nnear\n0\n1\n0 0 0 1\n1\nend_operator\nbegin_operator\nfar\n0\n1\n0 0 1 2\n1000000000000\nend_operator\nbegin_operator\njump\n0\n1\n0 0 0 2\n1000000000000\nend_operator\n0\n";

/// Two operators of one name.
pub const SAME_NAME: &[u8] =
    b"begin_version\n3\nend_version\nbegin_metric\n0\nend_metric\n1\nbegin_variable\nx\n-1\n2\nx0\nx1\nend_variable\n0\nbegin_state\n0\nend_state\nbegin_goal\n1\n0 1\nend_goal\n2\nbegin_operator\ngo\n0\n1\n0 0 0 1\n1\nend_operator\nbegin_operator\ngo\n0\n1\n0 0 0 1\n1\nend_operator\n0\n";

/// A plan of the greatest cost, and dearer ones.
pub const GREATEST_COST: &[u8] =
    b"begin_version\n3\nend_version\nbegin_metric\n1\nend_metric\n1\nbegin_variable\nx\n-1\n2\nx0\nx1\nend_variable\n0\nbegin_state\n0\nend_state\nbegin_goal\n1\n0 1\nend_goal\n2\nbegin_operator\ngo\n0\n1\n0 0 0 1\n18446744073709551615\nend_operator\nbegin_operator\nagain\n0\n1\n0 0 1 1\n1\nend_operator\n0\n";

/// Two switches of which one is on, in turn: two stated mutex groups that hold, and one that fails at first.
pub const IN_TURN: &[u8] =
    b"begin_version\n3\nend_version\nbegin_metric\n0\nend_metric\n2\nbegin_variable\na\n-1\n2\noff\non\nend_variable\nbegin_variable\nb\n-1\n2\noff\non\nend_variable\n3\nbegin_mutex_group\n2\n0 1\n1 1\nend_mutex_group\nbegin_mutex_group\n2\n0 0\n1 0\nend_mutex_group\nbegin_mutex_group\n2\n0 1\n1 0\nend_mutex_group\nbegin_state\n1\n0\nend_state\nbegin_goal\n1\n1 1\nend_goal\n1\nbegin_operator\nmove\n0\n2\n0 0 1 0\n0 1 0 1\n1\nend_operator\n0\n";

/// Two switches, in either order, and a stated mutex group that plans break.
pub const FALSE_GROUP: &[u8] =
    b"begin_version\n3\nend_version\nbegin_metric\n0\nend_metric\n2\nbegin_variable\na\n-1\n2\noff\non\nend_variable\nbegin_variable\nb\n-1\n2\noff\non\nend_variable\n1\nbegin_mutex_group\n2\n0 1\n1 1\nend_mutex_group\nbegin_state\n0\n0\nend_state\nbegin_goal\n2\n0 1\n1 1\nend_goal\n2\nbegin_operator\na-on\n0\n1\n0 0 0 1\n1\nend_operator\nbegin_operator\nb-on\n0\n1\n0 1 0 1\n1\nend_operator\n0\n";
