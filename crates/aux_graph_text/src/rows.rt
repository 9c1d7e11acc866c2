//! Graphs that were worked by hand, for the searches of several crates.

/// Graphs, and the definitions of the reference at node 0 of the first file, each as its file and its node, then
/// `limit` where a counted run was left out; within 128 edges and 48 symbols where nothing is said. A line that begins
/// with `#` says what the ones behind it show.
pub const ANSWERED: &str =
    r"# Symbols match with their scopes: one with attached scopes isn't a plain one.
push x R; pop x D | 0>1 => 0/1 whole
push x R; pop y D | 0>1 => whole
push_scoped x 1 R; scope E; pop x D | 0>2 => whole
push x R; pop_scoped x D | 0>1 => whole
scope; pop x D | 0>1 => no reference
# Three files, by way of the root.
push x R; push .; push a | 0>1, 1>2, 2>root & pop a; pop .; pop x; push y; push .; push b | root>0, 0-5, 5>root & pop b; pop .; pop y D | root>0, 0>1, 1>2 => 2/2 whole
# The jump goes on at the attached scope, and with no scopes nowhere.
push m R; push_scoped () 4; pop_scoped (); drop; scope E; pop m D | 0>1, 1>2, 2>jump, 4>5 => 0/5 whole
push m R; push_scoped () 4; pop_scoped (); drop; scope E; pop m D | 0>1, 1>2, 2>3, 3>jump, 4>5 => whole
# A round adds a symbol each time; one that comes back to an equal configuration isn't straight.
push x R; scope; push a; pop x D | 0>1, 1>2, 2>1, 1>3 => 0/3 limit
push x R; scope; pop x D | 0>1, 1>1, 1>2 => 0/2 whole
# The higher precedence shadows; equal ones don't.
push x R; scope; pop x D; pop x D | 0>1, 1>2/1, 1>3/2 => 0/3 whole
push x R; scope; pop x D; pop x D | 0>1, 1>2/1, 1>3/1 => 0/2 0/3 whole
# Two runs to one node are one row, and rows stand in file order.
push x R; scope; pop x D | 0>1, 1>root, 1>2 *2 & pop x D; pop x D | root>1, root>0 => 0/2 1/0 1/1 whole
# Edges and symbols are bounded.
push s R; push s *47; pop s *47; pop s D | 0-95 => 0/95 whole
push s R; push s *48; pop s *48; pop s D | 0-97 => limit
push s R; push s *48; pop s *48; pop s D | 0-97 within 128 edges 49 symbols => 0/97 whole
push x R; scope *127; pop x D | 0-128 => 0/128 whole
push x R; scope *128; pop x D | 0-129 => limit
push x R; scope *128; pop x D | 0-129 within 129 edges 48 symbols => 0/129 whole
push x R; scope; push a; pop x D | 0>1, 1>2, 2>1, 1>3 within 128 edges 96 symbols => 0/3 limit
# More than 8,192 runs are crowded: complete ones count, and closed ones.
push x R; scope *13; pop x D | 0>1, 1-13 *2, 13>14 *2 => 0/14 whole
push x R; scope *13; pop x D | 0>1, 1-13 *2, 13>14 *3 => crowded
push x R; scope *13; pop x D | 0>13, 13-1 *2, 13>14 *2 => 0/14 whole
push x R; scope *13; pop x D | 0>13, 13-1 *2, 13>14 *3 => crowded
push x R; scope E *13; pop x D | 0>1, 1-13 *2, 1>14 => 0/14 whole
push x R; scope E *13; pop x D | 0>1, 1-13 *2, 1>14 *2 => crowded
# As long and as deep as a file can make it.
push x R; scope *16382; pop x D | 0-16383 => limit
push x R; push y *16383 | 0-16383 => whole
# Ladders from which nothing can be reached: alone, beside a definition, and behind a cut.
push x R; scope *40 | 0>1, 1-40 *2 => whole
push x R; scope *40; pop x D | 0>1, 1-40 *2, 0>41 => 0/41 whole
push x R; scope E; scope *40; pop x D | 0>1, 1>2, 2-41 *2, 1>42 => 0/42 whole";

/// Small graphs with bounds, and how long the lists of edges are that a plain enumeration has to try.
pub const COMPARED: &str =
    r"# Rounds: through a turning node, through an exported scope, through the root, of one edge.
push x R; scope; pop x D | 0>1, 1>1, 1>2 within 4 edges 3 symbols by lists of 8
push x R; scope; push a; pop a; pop x D | 0>1, 1>2, 2>3, 3>1, 1>4 within 6 edges 2 symbols by lists of 12
push x R; scope; push a; pop x D | 0>1, 1>2, 2>1, 1>3 within 4 edges 3 symbols by lists of 10
push x R; scope E; pop x D | 0>1, 1>root, root>1, 1>2 within 5 edges 2 symbols by lists of 9
push x R; pop x; push x; pop x D | 0>1, 1>2, 2>1, 2>3 within 6 edges 2 symbols by lists of 12
push x R; pop x D; push x | 0>1, 1>2, 2>1 within 5 edges 2 symbols by lists of 9
# Jumps, back to a scope that pushes it once more too.
push x R; push_scoped c 4; pop_scoped c; drop; scope E; pop x D | 0>1, 1>2, 2>jump, 2>3, 3>5, 4>5 within 6 edges 3 symbols by lists of 9
push x R; push_scoped c 4; pop_scoped c; scope; scope E; pop x D | 0>1, 1>2, 2>jump, 4>1, 4>5, 4>3 within 7 edges 2 symbols by lists of 12
# Parallel edges, and precedences at the first difference and at a later one.
push x R; scope; pop x D; pop x D | 0>1 *2, 1>2 *2, 1>3/1 within 5 edges 3 symbols by lists of 6
push x R; scope; scope; pop x D; pop x D | 0>1/1, 0>2, 1>3, 2>3/4, 2>4/5 within 5 edges 3 symbols by lists of 6
push x R; scope; scope; pop x D; pop x D | 0>1/1, 0>2/1, 1>3, 1>4/1, 2>3, 2>4 within 5 edges 3 symbols by lists of 6
push x R; pop x D; scope; pop x D | 0>1, 0>2/1, 2>3 within 4 edges 3 symbols by lists of 6
# A longer path goes on from a definition, and none shadows the beginning of another.
push x R; pop x D; push x; pop x D | 0>1, 1>2/3, 2>3 within 4 edges 3 symbols by lists of 6
# The bounds: one edge and one symbol too many.
push x R; scope; scope; pop x D | 0>1, 1>2, 2>3 within 3 edges 1 symbols by lists of 6
push x R; scope; scope; pop x D | 0>1, 1>2, 2>3 within 2 edges 1 symbols by lists of 6
push x R; push y; pop y; pop x D; pop x D | 0>1, 1>2, 2>3, 0>4 within 4 edges 1 symbols by lists of 6
push x R; scope E; scope E; scope; pop x D | 0-4, 0>4 within 2 edges 2 symbols by lists of 7
# Several files, by way of the root.
push x R; scope | 0>root, 0>1/2, 1>root & pop x D; push x | root>0, 0>1, 1>root & pop x D | root>0/1 within 5 edges 2 symbols by lists of 9
# As many runs as may be counted, and one more.
push x R; scope E *5 | 0>1 *8, 1>2 *11, 2>3 *4, 3>4 *22 within 9 edges 3 symbols by lists of 5
push x R; scope E *5 | 0>1 *8, 1>2 *11, 2>3 *4, 3>4 *22, 0>5 within 9 edges 3 symbols by lists of 5";
