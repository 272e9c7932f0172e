// Plans for the four engines (document 02, wish 13): the check, which accepts exactly what specs/Plan.antt describes, and our planner.
#![tactic(auto)]

ghost use Rattle.std.specs.Prelude.{◌≡◌, ◌+◌, ◌*◌, ◌≤◌, length};
ghost use Rattle.lists.specs.Lay.{lay};
ghost use Rattle.plans.specs.Plan.{pair_at, Judged};
ghost use Rattle.plans.specs.Planner.{plan_of};

// The pair that entry j is for.
pub fn pair_at(plan: &[u8], j: usize) -> usize
    requires { 3 * j + 3 ≤ length plan.now }
    ensures { result ≡ pair_at plan.now j }
{
    usize::from(u16::from_be_bytes([plan[3 * j], plan[3 * j + 1]]))
}

// Whether a plan is one for n pairs: a mark for each pair, set where an entry is for it.
pub fn accepted(plan: &[u8], n: usize) -> bool
    requires { n ≤ 511 }
    ensures { Judged result n plan.now }
{
    if plan.len() != 3 * n {
        return false;
    }
    let mut marks = [false; 511];
    for j in 0..n {
        let i = pair_at(plan, j);
        if n <= i || 4 <= plan[3 * j + 2] || marks[i] {
            return false;
        }
        marks[i] = true;
    }
    true
}

// The planner's plan for n pairs into out.
pub fn put_plan(n: usize, out: &mut [u8])
    requires { (n ≤ 511) × (3 * n ≤ length out.old) }
    ensures { out.new ≡ lay 0 (plan_of n) out.old }
{
    for i in 0..n {
        let [high, low] = (i as u16).to_be_bytes();
        lists::lay(out, 3 * i, &[high, low, (i % 4) as u8]);
    }
}
