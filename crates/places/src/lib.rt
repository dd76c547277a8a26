// Is each place of the process and of the thread table sound? The first half of the test of the whole store.
// In passing it is noted which signals each process ignores, and in which place the process of each thread is.
#![tactic(auto)]

ghost use Rattle.std.specs.Prelude.{◌≡◌, true, false, cond, ◌+◌, ◌≤◌, ◌<◌, eqb, get_or, MatchOption};
ghost use Rattle.std.specs.Int.Bits.{bit_or};
ghost use Rattle.limits.specs.Limits.{process_places, head_words, thread_places, thread_words, signals, sig_ign};
ghost use Rattle.limits.specs.Limits.{sig_dfl};
ghost use Rattle.lists.specs.Lists.{all, range};
ghost use Rattle.sigset.specs.Set.{empty, of_signal, set_of, union};
ghost use Rattle.rules.specs.View.{action_of};
ghost use Rattle.rules.specs.Sound.{is_live, kill_stop_default, zero_thread, process_id, thread_id};
ghost use Rattle.tables.specs.Tables.{processes_of, threads_of, held_processes, process_at, thread_at};
ghost use Rattle.tables.specs.Tables.{head_to, thread_to};
ghost use Rattle.soundness.specs.Check.{head_ok, live_process_ok, process_ok_at, processes_ok, live_thread_ok};
ghost use Rattle.soundness.specs.Check.{thread_ok_at, threads_ok, places_ok, process_by, thread_by, ignored_by};
ghost use Rattle.soundness.specs.Check.{disjoint, one_place, owner_place};
ghost use Rattle.places.specs.Notes.{block, ignored_by_choice, threaded_by};
ghost use Rattle.places.specs.Notes.{Gathers, IgnoredNoted, OwnersNoted, ThreadedNoted};

use hints::Indexed;
use limits::{
    PROCESS_EFFECTIVE, PROCESS_ID, PROCESS_MARKS, PROCESS_PLACES, PROCESS_REAL, PROCESS_SAVED,
    PROCESS_SESSION, PROCESS_STOPPED, PROCESS_WORDS, SIG_DFL, SIG_IGN, SIGCHLD, SIGKILL, SIGNALS,
    SIGSTOP, SIGURG, SIGWINCH, THREAD_ID, THREAD_MARKS, THREAD_MASK, THREAD_PLACES, THREAD_PROCESS,
    THREAD_WORDS,
};
use sigset::SigSet;
use types::Action;

// The two tables, each with the hints of its ids.
pub type Processes<'a> = Indexed<'a, PROCESS_WORDS, PROCESS_PLACES>;

pub type Threads<'a> = Indexed<'a, THREAD_WORDS, THREAD_PLACES>;

// ---- one process place

#[derive(Drop)]
struct ProcessPlace<'a> {
    table: Processes<'a>,
    place: usize,
    ghost inside: { place < process_places },
}

// What all actions of a process have together: their flags, their masks, and the signals that are set to ignore.
#[derive(Clone, Copy)]
pub struct Gathered {
    pub flags: u64,
    pub masks: SigSet,
    pub chosen: SigSet,
}

// How many actions are gathered at once. It divides SIGNALS.
const BLOCK: u32 = 8;

// The set that has s alone where the test holds, else the empty one.
fn alone_if(holds: bool, s: u32) -> SigSet
    ensures { result ≡ cond holds (of_signal s) empty }
{
    if holds {
        return SigSet::of_signal(s);
    }
    SigSet::EMPTY
}

fn are_disjoint(a: SigSet, b: SigSet) -> bool
    ensures { result ≡ disjoint a b }
{
    let both = a.intersect(b);
    both.0 == 0
}

impl Gathered {
    // One more action.
    fn with(self, a: Action, s: u32) -> Self
        ensures { (result.flags ≡ bit_or self.flags a.flags) × ((result.masks ≡ union self.masks a.mask)
            × (result.chosen ≡ union self.chosen (cond (eqb a.handler sig_ign) (of_signal s) empty))) }
    {
        Gathered {
            flags: self.flags | a.flags,
            masks: self.masks.union(a.mask),
            chosen: self.chosen.union(alone_if(a.handler == SIG_IGN, s)),
        }
    }
}

impl ProcessPlace<'_> {
    fn field(&self, field: usize) -> u64
        requires { field < head_words }
        ensures { result ≡ get_or (head_to (process_at self.now.table.words.now self.now.place)) field 0 }
    {
        tables::field_at(self.table.words, self.place, field)
    }

    fn action(&self, signal: u32) -> Action
        requires { (1 ≤ signal) × (signal ≤ signals) }
        ensures { result ≡ action_of (process_at self.now.table.words.now self.now.place).holds signal }
    {
        tables::action_at(self.table.words, self.place, signal)
    }

    // Are the id, the other fields and the marks of a live process in range?
    fn head_ok(&self) -> bool
        ensures { result ≡ head_ok (process_at self.now.table.words.now self.now.place) }
    {
        let id = decide::is_id(self.field(PROCESS_ID));
        let real = decide::is_user(self.field(PROCESS_REAL));
        let effective = decide::is_user(self.field(PROCESS_EFFECTIVE));
        let saved = decide::is_user(self.field(PROCESS_SAVED));
        let session = decide::is_user(self.field(PROCESS_SESSION));
        let stopped = self.field(PROCESS_STOPPED);
        let marks = decide::is_unmasked(SigSet(self.field(PROCESS_MARKS)));
        let fields = real & (effective & (saved & (session & (stopped <= 1))));
        id & (fields & marks)
    }

    fn kill_stop_default(&self) -> bool
        ensures { result ≡ kill_stop_default (process_at self.now.table.words.now self.now.place) }
    {
        let kill = decide::is_default(self.action(SIGKILL));
        let stop = decide::is_default(self.action(SIGSTOP));
        kill & stop
    }

    // The next actions, after those that are done: so few that the compiler writes them out.
    fn gather_block(&self, g: Gathered, done: u32) -> Gathered
        requires { (done + block ≤ signals)
            × Gathers (process_at self.now.table.words.now self.now.place).holds done g }
        ensures { Gathers (process_at self.now.table.words.now self.now.place).holds (done + block) result }
    {
        let mut h = g;
        for i in 0..BLOCK {
            let s = done + i + 1;
            h = h.with(self.action(s), s);
        }
        h
    }

    // The one pass over the actions.
    fn gather(&self) -> Gathered
        ensures { Gathers (process_at self.now.table.words.now self.now.place).holds signals result }
    {
        let mut g = Gathered {
            flags: 0,
            masks: SigSet::EMPTY,
            chosen: SigSet::EMPTY,
        };
        for n in 0..SIGNALS / BLOCK {
            g = self.gather_block(g, n * BLOCK);
        }
        g
    }

    // The set of the signal alone where its action is the default, else the empty one.
    fn if_default(&self, s: u32) -> SigSet
        requires { (1 ≤ s) × (s ≤ signals) }
        ensures { result ≡ cond (eqb (action_of (process_at self.now.table.words.now self.now.place).holds
            s).handler sig_dfl) (of_signal s) empty }
    {
        alone_if(self.action(s).handler == SIG_DFL, s)
    }

    // The signals that the process ignores: those set to ignore, and by default CHLD, URG and WINCH.
    fn ignored(&self, chosen: SigSet) -> SigSet
        requires { chosen
            ≡ set_of (ignored_by_choice (process_at self.now.table.words.now self.now.place).holds) }
        ensures { result ≡ ignored_by (process_at self.now.table.words.now self.now.place).holds }
    {
        let first = chosen.union(self.if_default(SIGCHLD));
        let second = first.union(self.if_default(SIGURG));
        second.union(self.if_default(SIGWINCH))
    }

    // A live process, with what was gathered of its actions.
    fn live_ok(&self, g: Gathered, ignores: SigSet) -> bool
        requires { Gathers (process_at self.now.table.words.now self.now.place).holds signals g
            × (ignores ≡ ignored_by (process_at self.now.table.words.now self.now.place).holds) }
        ensures { result ≡ live_process_ok (process_by self.now.table.hints.now self.now.table.words.now)
            self.now.place (process_at self.now.table.words.now self.now.place) }
    {
        let marks = SigSet(self.field(PROCESS_MARKS));
        let found = self.table.place_of(self.field(PROCESS_ID)) == Some(self.place);
        let unmaskable = self.kill_stop_default();
        let actions = decide::is_unmasked(g.masks) & decide::are_flags_known(g.flags);
        let delivered = are_disjoint(marks, ignores);
        self.head_ok() & (found & (unmaskable & (actions & delivered)))
    }

    // What the process ignores, if the place is sound; of a free place it says nothing.
    fn ignored_if_sound(&self) -> Option<SigSet>
        ensures { MatchOption result
            (process_ok_at (process_by self.now.table.hints.now self.now.table.words.now)
            (processes_of self.now.table.words.now) self.now.place ≡ false)
            (λ ignores. (process_ok_at (process_by self.now.table.hints.now self.now.table.words.now)
            (processes_of self.now.table.words.now) self.now.place ≡ true)
            × (is_live process_id (process_at self.now.table.words.now self.now.place) ≡ true
            → ignores ≡ ignored_by (process_at self.now.table.words.now self.now.place).holds)) }
    {
        if self.field(PROCESS_ID) == 0 {
            let at = self.place * PROCESS_WORDS;
            let is_zero = zeros::all_zero(&self.table.words[at..at + PROCESS_WORDS]);
            return is_zero.then_some(SigSet::EMPTY);
        }
        let g = self.gather();
        let ignores = self.ignored(g.chosen);
        self.live_ok(g, ignores).then_some(ignores)
    }
}

// The signals that the process in each place ignores, if all those places are sound.
fn processes_ok(ps: &Processes<'_>) -> Option<[SigSet; PROCESS_PLACES]>
    ensures { MatchOption result
        (processes_ok (process_by ps.now.hints.now ps.now.words.now) (processes_of ps.now.words.now) ≡ false)
        (λ ignored. (processes_ok (process_by ps.now.hints.now ps.now.words.now) (processes_of ps.now.words.now) ≡ true)
        × IgnoredNoted (processes_of ps.now.words.now) process_places ignored) }
{
    let mut ignored = [SigSet::EMPTY; PROCESS_PLACES];
    for place in 0..PROCESS_PLACES {
        let at = ProcessPlace { table: *ps, place };
        ignored[place] = at.ignored_if_sound()?;
    }
    Some(ignored)
}

// ---- one thread place

#[derive(Drop)]
struct ThreadPlace<'a> {
    table: Threads<'a>,
    place: usize,
    ghost inside: { place < thread_places },
}

impl ThreadPlace<'_> {
    fn field(&self, field: usize) -> u64
        requires { field < thread_words }
        ensures { result ≡ get_or (thread_to (thread_at self.now.table.words.now self.now.place)) field 0 }
    {
        tables::thread_field_at(self.table.words, self.place, field)
    }

    fn free_ok(&self) -> bool
        ensures { result ≡ zero_thread (thread_at self.now.table.words.now self.now.place) }
    {
        let owner = self.field(THREAD_PROCESS);
        let mask = self.field(THREAD_MASK);
        let marks = self.field(THREAD_MARKS);
        (owner == 0) & ((mask == 0) & (marks == 0))
    }

    // A live thread, whose process ignores these signals.
    fn live_ok(&self, ignores: SigSet) -> bool
        ensures { result ≡ live_thread_ok (thread_by self.now.table.hints.now self.now.table.words.now) ignores
            self.now.place (thread_at self.now.table.words.now self.now.place) }
    {
        let id = self.field(THREAD_ID);
        let mask = decide::is_unmasked(SigSet(self.field(THREAD_MASK)));
        let marks = SigSet(self.field(THREAD_MARKS));
        let found = self.table.place_of(id) == Some(self.place);
        let delivered = are_disjoint(marks, ignores);
        decide::is_id(id) & (mask & (decide::is_unmasked(marks) & (found & delivered)))
    }

    // The place of a live thread's process, if the thread's place is sound.
    fn owner_if_sound(
        &self,
        ps: &Processes<'_>,
        ignored: &[SigSet; PROCESS_PLACES],
    ) -> Option<usize>
        requires live { is_live thread_id (thread_at self.now.table.words.now self.now.place) ≡ true }
        requires one_place { one_place (held_processes ps.now.words.now) }
        requires noted { IgnoredNoted (processes_of ps.now.words.now) process_places ignored.now }
        ensures { MatchOption result
            (thread_ok_at (thread_by self.now.table.hints.now self.now.table.words.now)
            (processes_of ps.now.words.now) (threads_of self.now.table.words.now) self.now.place ≡ false)
            (λ owner. (thread_ok_at (thread_by self.now.table.hints.now self.now.table.words.now)
            (processes_of ps.now.words.now) (threads_of self.now.table.words.now) self.now.place ≡ true)
            × ((owner < process_places) × (owner ≡ owner_place (held_processes ps.now.words.now)
            (thread_at self.now.table.words.now self.now.place)))) }
    {
        let process = self.field(THREAD_PROCESS);
        let owner = ps.place_of(process)?;
        self.live_ok(ignored[owner]).then_some(owner)
    }
}

// Where the process of each thread is, and which processes have one.
#[derive(Drop)]
struct Owners {
    places: [u16; THREAD_PLACES],
    threaded: [bool; PROCESS_PLACES],
}

// The processes of the threads, if all places of these are sound.
fn threads_ok(
    ps: &Processes<'_>,
    ts: &Threads<'_>,
    ignored: &[SigSet; PROCESS_PLACES],
) -> Option<Owners>
    requires one_place { one_place (held_processes ps.now.words.now) }
    requires noted { IgnoredNoted (processes_of ps.now.words.now) process_places ignored.now }
    ensures { MatchOption result
        (threads_ok (thread_by ts.now.hints.now ts.now.words.now) (processes_of ps.now.words.now)
        (threads_of ts.now.words.now) ≡ false)
        (λ owners. (threads_ok (thread_by ts.now.hints.now ts.now.words.now) (processes_of ps.now.words.now)
        (threads_of ts.now.words.now) ≡ true)
        × (OwnersNoted (processes_of ps.now.words.now) (threads_of ts.now.words.now) thread_places owners.places
        × ThreadedNoted (processes_of ps.now.words.now) (threads_of ts.now.words.now) thread_places
        owners.threaded)) }
{
    let mut places = [0; THREAD_PLACES];
    let mut threaded = [false; PROCESS_PLACES];
    for place in 0..THREAD_PLACES {
        let at = ThreadPlace { table: *ts, place };
        if at.field(THREAD_ID) != 0 {
            let owner = at.owner_if_sound(ps, ignored)?;
            places[place] = owner as u16;
            threaded[owner] = true;
        } else if !at.free_ok() {
            return None;
        }
    }
    Some(Owners { places, threaded })
}

// ---- all places

// Has the process in a place a thread? A free place needs none.
fn has_thread(ps: &Processes<'_>, threaded: &[bool; PROCESS_PLACES], place: usize) -> bool
    requires { place < process_places }
    ensures { result ≡ threaded_by (processes_of ps.now.words.now) threaded.now place }
{
    (tables::field_at(ps.words, place, PROCESS_ID) == 0) | threaded[place]
}

fn all_have_threads(ps: &Processes<'_>, threaded: &[bool; PROCESS_PLACES]) -> bool
    ensures { result ≡ all (threaded_by (processes_of ps.now.words.now) threaded.now) (range 0 process_places) }
{
    (0..PROCESS_PLACES).all(|place| has_thread(ps, threaded, place))
}

// The two tables, all places of them sound, with what a record is held against.
#[derive(Drop)]
pub struct SoundPlaces<'a> {
    pub processes: Processes<'a>,
    pub threads: Threads<'a>,
    // The signals that the process in each place ignores.
    pub ignored: [SigSet; PROCESS_PLACES],
    // The place of the process of the thread in each place.
    pub owners: [u16; THREAD_PLACES],
    pub ghost sound: { places_ok (process_by processes.hints.now processes.words.now)
        (thread_by threads.hints.now threads.words.now)
        (processes_of processes.words.now) (threads_of threads.words.now) ≡ true },
    pub ghost ignored_noted: { IgnoredNoted (processes_of processes.words.now) process_places ignored },
    pub ghost owners_noted: { OwnersNoted (processes_of processes.words.now)
        (threads_of threads.words.now) thread_places owners },
}

impl<'a> SoundPlaces<'a> {
    // The tables, if all their places are sound.
    pub fn of(processes: &Processes<'a>, threads: &Threads<'a>) -> Option<Self>
        ensures { MatchOption result
            (places_ok (process_by processes.now.hints.now processes.now.words.now)
            (thread_by threads.now.hints.now threads.now.words.now)
            (processes_of processes.now.words.now) (threads_of threads.now.words.now) ≡ false)
            (λ places. (places.processes ≡ processes.now) × (places.threads ≡ threads.now)) }
    {
        let ignored = processes_ok(processes)?;
        let owners = threads_ok(processes, threads, &ignored)?;
        if !all_have_threads(processes, &owners.threaded) {
            return None;
        }
        Some(SoundPlaces {
            processes: *processes,
            threads: *threads,
            ignored,
            owners: owners.places,
        })
    }
}
