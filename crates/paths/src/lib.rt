// Loops over a path, which is lent as the numbers of its edges in order.
#![tactic(auto)]

ghost use Rattle.std.specs.Prelude.{◌+◌, ◌-◌, ◌≡◌, ◌≤◌, length, take, eqb};
ghost use Rattle.doubles.specs.Doubles.{◌⊕◌};
ghost use Rattle.rules.specs.Lists.{any, at_each_crossing};
ghost use Rattle.rules.specs.Filling.{spend as the_spend};
ghost use Rattle.paths.specs.Known.{Known, Roomy, Counted};

use rules::Route;

// The edges that a route names, as a path that can be lent.
pub fn hops(route: &Route) -> &[usize]
    requires { route.now.len ≤ length route.now.hops }
    ensures { result.now ≡ take route.now.len route.now.hops }
{
    &route.hops[..route.len]
}

// Whether the path crosses edge e at all.
pub fn crosses(path: &[usize], e: usize) -> bool
    ensures { result ≡ any (eqb e) path.now }
{
    path.contains(&e)
}

// Takes a rate off what is left of each edge, once for each crossing, and never below 0. One function for each change:
// over a closure, `raise` and `lower` would have to say at each crossing that theirs may be called there.
pub fn spend(residual: &mut [f64], path: &[usize], rate: f64)
    requires { Known (length residual.old) path.now }
    ensures { residual.new ≡ at_each_crossing path.now (the_spend rate) residual.old }
{
    for e in path {
        residual[*e] = doubles::larger(residual[*e] - rate, 0.0);
    }
}

// Adds an amount at each edge, once for each crossing.
pub fn credit(moved: &mut [f64], path: &[usize], amount: f64)
    requires { Known (length moved.old) path.now }
    ensures { moved.new ≡ at_each_crossing path.now (λ m. m ⊕ amount) moved.old }
{
    for e in path {
        moved[*e] += amount;
    }
}

// One more for each crossing.
pub fn raise(load: &mut [usize], path: &[usize])
    requires known { Known (length load.old) path.now }
    requires roomy { Roomy path.now load.old }
    ensures { load.new ≡ at_each_crossing path.now (λ n. n + 1) load.old }
{
    for e in path {
        load[*e] += 1;
    }
}

// One less for each crossing.
pub fn lower(load: &mut [usize], path: &[usize])
    requires known { Known (length load.old) path.now }
    requires counted { Counted path.now load.old }
    ensures { load.new ≡ at_each_crossing path.now (λ n. n - 1) load.old }
{
    for e in path {
        load[*e] -= 1;
    }
}
