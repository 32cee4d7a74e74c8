//! Small jobs, each of which shows one thing, for programs that run jobs in several ways.
#![tactic(auto)]

ghost use Rattle.std.specs.Prelude.{◌≡◌};

mod cholesky;

pub use crate::cholesky::{cholesky_4, cholesky_20, decorated_cholesky};

/// A job's two texts, with a name to print.
#[derive(Clone, Copy)]
pub struct Job {
    pub name: &'static str,
    pub jdf: &'static [u8],
    pub data: &'static [u8],
}

impl Job {
    // The job of two texts.
    fn of(name: &'static str, jdf: &'static str, records: &'static str) -> Job {
        Job {
            name,
            jdf: jdf.as_bytes(),
            data: records.as_bytes(),
        }
    }

    /// The same job with another name to print.
    pub fn named(self, name: &'static str) -> Job
        ensures texts { (result.jdf.now ≡ self.jdf.now) × (result.data.now ≡ self.data.now) }
        ensures name { result.name.now ≡ name.now }
    {
        Job { name, ..self }
    }
}

// The data of a job with one tile of one number, which is 0.
const ONE_TILE: &str = "elems,1
coll,D,1
";

// The JDF of tasks that each add 1 to a tile: of each its name, where its tile comes from, and where it goes.
macro_rules! adding {
    ($(($task:literal, $from:literal, $to:literal)),*) => {
        concat!("D
", $("
", $task, "(k)
k = 0 .. 0
: D(0)
RW A <- ", $from, "
     -> ", $to, "
BODY
A[0] = A[0] + 1;
END
"),*)
    };
}

// The JDF of a task that waits for itself and for an edge that arrives. It is at this place, the edge's source at 0.
macro_rules! waiting {
    ($place:literal) => {
        concat!("D

S(z)
z = 0 .. 0
: D(0)
WRITE A -> X T(0)
BODY
END

T(z)
z = 0 .. 0
: D(", $place, ")
READ X <- A S(0)
CTL c <- c T(0)
      -> c T(0)
BODY
END
")
    };
}

// The JDF of four tasks T(k) at this place, with this edge. Two of them trap. Further classes follow.
macro_rules! trapping {
    ($place:literal, $edge:literal $(, $more:literal)*) => {
        concat!("D

T(k)
k = 0 .. 3
: D(", $place, ")
WRITE A", $edge, "
BODY
if (k == 2) { A[0] = 1 / 0; }
if (k == 3) { A[1] = 1; }
END
" $(, $more)*)
    };
}

// A JDF, as a call of a macro, with two more tasks that wait for each other.
macro_rules! with_ring {
    ($jdf:ident!($($text:literal),*)) => {
        $jdf!($($text,)* "
P(z)
z = 0 .. 0
: D(0)
CTL a <- a Q(0)
      -> a Q(0)
BODY
END

Q(z)
z = 0 .. 0
: D(0)
CTL a <- a P(0)
      -> a P(0)
BODY
END
")
    };
}

/// Src(0) sends one tile, whose number is 10, to three tasks Sink(i). Each adds i to its number and writes it back to
/// its own place. It is the job of the row 'a broadcast' of jobs.txt.
pub fn broadcast() -> Job {
    let jdf = "D

Src(z)
z = 0 .. 0
: D(0)
READ A <- D(0)
     -> X Sink(0 .. 2)
BODY
END

Sink(i)
i = 0 .. 2
: D(i)
RW X <- A Src(0)
     -> D(i)
BODY
X[0] = X[0] + i;
END
";
    let data = "elems,1
coll,D,3
tile,D,0,10
";
    Job::of("broadcast", jdf, data)
}

/// Three tasks each add 1 to a place, and one waits for all of them.
pub fn gather() -> Job {
    let jdf = "D
Done

Work(i)
i = 0 .. 2
: D(i)
RW A <- D(i)
     -> D(i)
CTL c -> c Last(0)
BODY
A[0] = A[0] + 1;
END

Last(z)
z = 0 .. 0
: Done(0)
CTL c <- c Work(0 .. 2)
WRITE M -> Done(0)
BODY
M[0] = 1;
END
";
    let data = "elems,1
coll,D,3
coll,Done,1
tile,D,0,5
tile,D,1,6
tile,D,2,7
";
    Job::of("gather", jdf, data)
}

/// Four tasks, each at the place of its number. Between two ranks each edge is a message.
pub fn chain() -> Job {
    let jdf = "D
NB

Task(k)
k = 0 .. NB
: D(k)
RW A <- (k == 0) ? D(0) : A Task(k-1)
     -> (k == NB) ? D(0) : A Task(k+1)
BODY
A[0] = A[0] + 1;
END
";
    let data = "elems,1
int,NB,3
coll,D,4
tile,D,0,5
";
    Job::of("chain", jdf, data)
}

/// One task with tiles of two datatypes.
pub fn types() -> Job {
    let jdf = "D
Q

T(z)
z = 0 .. 0
: D(0)
RW A <- D(0) -> D(0)
RW B <- Q(0) [type = PAIR] -> Q(0) [type = PAIR]
BODY
A[0] = A[0] + B[1]; B[0] = 7;
END
";
    let data = "elems,1
elems,PAIR,2
coll,D,1
collof,PAIR,Q,1
tile,D,0,5
tile,Q,0,3,4
";
    Job::of("types", jdf, data)
}

/// One task without edges.
pub fn one_task() -> Job {
    let jdf = adding!(("Alone", "D(0)", "D(0)"));
    Job::of("one task", jdf, ONE_TILE)
}

/// Two tasks: the second one is ready once the first one has sent it its tile.
pub fn pair() -> Job {
    let jdf = adding!(
        ("First", "D(0)", "A Second(0)"),
        ("Second", "A First(0)", "D(0)")
    );
    Job::of("a pair", jdf, ONE_TILE)
}

/// Two tasks without an edge between them.
pub fn two_tasks() -> Job {
    let jdf = "D

T(k)
k = 0 .. 1
: D(0)
WRITE A
BODY
END
";
    Job::of("two tasks", jdf, ONE_TILE)
}

/// T(0) waits for itself, and for an edge that arrives.
pub fn stall() -> Job {
    Job::of("stall", waiting!("0"), ONE_TILE)
}

/// The same with the two tasks at two places: between two ranks the edge that arrives is a message.
pub fn stall_apart() -> Job {
    let data = "elems,1
coll,D,2
";
    Job::of("stall apart", waiting!("1"), data)
}

/// Four tasks without edges. Two of them trap.
pub fn traps() -> Job {
    Job::of("traps", trapping!("0", ""), ONE_TILE)
}

/// Four tasks, each with an edge to a task at the next place. Two of them trap: their edges are no messages.
pub fn traps_apart() -> Job {
    let jdf = trapping!(
        "k",
        " -> X U(k)",
        "
U(k)
k = 0 .. 3
: D(k + 1)
READ X <- A T(k)
BODY
END
"
    );
    let data = "elems,1
coll,D,5
";
    Job::of("traps apart", jdf, data)
}

/// Two tasks that wait for each other.
pub fn ring() -> Job {
    Job::of("ring", with_ring!(concat!("D\n")), ONE_TILE)
}

/// Traps beside tasks that wait for each other: the answer is the traps alone.
pub fn traps_and_ring() -> Job {
    let jdf = with_ring!(trapping!("0", ""));
    Job::of("two traps and a ring", jdf, ONE_TILE)
}
