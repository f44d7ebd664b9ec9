// Check 12: whether the numbers of a run sheet keep the rules.
ghost use Rattle.std.specs.Prelude.{◌≡◌, ◌+◌, ◌≤◌, ◌<◌, length, get_or, drop};
ghost use Rattle.sheet.specs.Parsed.{path_test, not_before, preemption_test, preemptions_from, list_test, parse, kept_list, kept_sheet};

// The most blocks of a path.
const BLOCKS: usize = 1536;

// The most preemptions.
const PREEMPTIONS: usize = 16;

// Whether a path of this many blocks can stand at the beginning of the numbers.
pub fn path_kept(long: usize, rest: &[u16]) -> bool
    ensures { result ≡ path_test long rest.now }
{
    if long < 1 {
        return false;
    }
    if BLOCKS < long {
        return false;
    }
    long <= rest.len()
}

// Whether the point of the position j and e references done doesn't come before that of i and d: the positions decide, or the references.
pub fn not_before(i: usize, d: usize, j: usize, e: usize) -> bool
    ensures { result ≡ not_before i d j e }
{
    if i < j {
        return true;
    }
    if i == j {
        return d <= e;
    }
    false
}

// Whether the preemption that begins at `at` keeps the rules, in a path of `long` blocks of the task p, where the point before it is the position
// `low` with `low_done` references done. The number of references done is not tested against the block.
fn preemption_kept(
    sheet: &[u16],
    at: usize,
    tasks: usize,
    p: usize,
    long: usize,
    low: usize,
    low_done: usize,
) -> bool
    requires { at + 4 ≤ length sheet.now }
    ensures { result ≡ preemption_test tasks p long low low_done (get_or sheet.now at 0) (get_or sheet.now (at + 1) 0)
        (get_or sheet.now (at + 2) 0) (get_or sheet.now (at + 3) 0) (drop (at + 4) sheet.now) }
{
    let position = usize::from(sheet[at]);
    let by = usize::from(sheet[at + 2]);
    if not_before(low, low_done, position, usize::from(sheet[at + 1])) {
        if long <= position {
            return false;
        }
        if tasks <= by {
            return false;
        }
        if by == p {
            return false;
        }
        let from = at + 4;
        return path_kept(usize::from(sheet[at + 3]), &sheet[from..]);
    }
    false
}

// Whether the numbers from `from` on are this many preemptions, and nothing else.
fn preemptions_kept(
    sheet: &[u16],
    from: usize,
    all: usize,
    tasks: usize,
    p: usize,
    long: usize,
) -> bool
    requires { from ≤ length sheet.now }
    ensures { result ≡ kept_list (preemptions_from tasks p long all 0 0 (drop from sheet.now)) }
{
    let mut at = from;
    let mut low: usize = 0;
    let mut low_done: usize = 0;
    for k in 0..all {
        if sheet.len() < at + 4 {
            return false;
        }
        if preemption_kept(sheet, at, tasks, p, long, low, low_done) {
            low = usize::from(sheet[at]);
            low_done = usize::from(sheet[at + 1]);
            at = at + 4 + usize::from(sheet[at + 3]);
        } else {
            return false;
        }
    }
    at == sheet.len()
}

// Whether the numbers from `at` on are a count and as many preemptions, in a path of `long` blocks of the task p.
fn list_kept(sheet: &[u16], at: usize, tasks: usize, p: usize, long: usize) -> bool
    requires { at ≤ length sheet.now }
    ensures { result ≡ list_test tasks p long (drop at sheet.now) }
{
    if sheet.len() <= at {
        return false;
    }
    let all = usize::from(sheet[at]);
    if PREEMPTIONS < all {
        return false;
    }
    preemptions_kept(sheet, at + 1, all, tasks, p, long)
}

// Check 12: whether the sheet keeps the rules, in a file of this many tasks.
pub fn sheet_kept(sheet: &[u16], tasks: usize) -> bool
    ensures { result ≡ kept_sheet (parse tasks sheet.now) }
{
    if sheet.len() < 2 {
        return false;
    }
    let p = usize::from(sheet[0]);
    if tasks <= p {
        return false;
    }
    let long = usize::from(sheet[1]);
    if path_kept(long, &sheet[2..]) {
        return list_kept(sheet, 2 + long, tasks, p, long);
    }
    false
}
