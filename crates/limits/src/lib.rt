// Every capacity, offset and number of document 01, by name. specs/Limits.antt has the same; no other file writes them.
#![tactic(auto)]

// ---- capacities

// Places of the process table and of the thread table; records of each buffer.
pub const PROCESS_PLACES: usize = 16;

pub const THREAD_PLACES: usize = 64;

pub const BUFFER_RECORDS: usize = 512;

// The records that one process may have pending, its threads' queues counted in.
pub const RECORD_LIMIT: usize = 32;

// The largest process or thread id.
pub const LARGEST_ID: u32 = 2147483647;

// The largest user id and session id: 32 bits.
pub const LARGEST_USER: u32 = 4294967295;

// ---- signals: 1 to LAST_STANDARD are standard, the rest to SIGNALS realtime

pub const SIGNALS: u32 = 64;

pub const LAST_STANDARD: u32 = 31;

pub const SIGILL: u32 = 4;

pub const SIGTRAP: u32 = 5;

pub const SIGKILL: u32 = 9;

pub const SIGCHLD: u32 = 17;

pub const SIGCONT: u32 = 18;

pub const SIGSTOP: u32 = 19;

pub const SIGTSTP: u32 = 20;

pub const SIGTTIN: u32 = 21;

pub const SIGTTOU: u32 = 22;

pub const SIGURG: u32 = 23;

pub const SIGWINCH: u32 = 28;

// ---- actions: the two handler numbers that are no handler, and the flags

pub const SIG_DFL: u64 = 0;

pub const SIG_IGN: u64 = 1;

pub const SA_SIGINFO: u64 = 0x4;

pub const SA_RESTART: u64 = 0x10000000;

pub const SA_NODEFER: u64 = 0x40000000;

pub const SA_RESETHAND: u64 = 0x80000000;

pub const KNOWN_FLAGS: u64 = SA_SIGINFO + SA_RESTART + SA_NODEFER + SA_RESETHAND;

// ---- masks: the three ways to change one

pub const SIG_BLOCK: u32 = 0;

pub const SIG_UNBLOCK: u32 = 1;

pub const SIG_SETMASK: u32 = 2;

// ---- the code of a queued record, -1 in 32 bits

pub const SI_QUEUE: u32 = 0xFFFFFFFF;

// ---- refusals

pub const EPERM: u32 = 1;

pub const ESRCH: u32 = 3;

pub const EAGAIN: u32 = 11;

pub const EFAULT: u32 = 14;

pub const EEXIST: u32 = 17;

pub const EINVAL: u32 = 22;

// ---- words of the tables: the head fields of a process, the fields of an action, the fields of a thread

pub const PROCESS_ID: usize = 0;

pub const PROCESS_REAL: usize = 1;

pub const PROCESS_EFFECTIVE: usize = 2;

pub const PROCESS_SAVED: usize = 3;

pub const PROCESS_SESSION: usize = 4;

pub const PROCESS_STOPPED: usize = 5;

pub const PROCESS_MARKS: usize = 6;

pub const HEAD_WORDS: usize = 7;

pub const ACTION_HANDLER: usize = 0;

pub const ACTION_FLAGS: usize = 1;

pub const ACTION_MASK: usize = 2;

pub const ACTION_WORDS: usize = 3;

pub const THREAD_ID: usize = 0;

pub const THREAD_PROCESS: usize = 1;

pub const THREAD_MASK: usize = 2;

pub const THREAD_MARKS: usize = 3;

pub const THREAD_WORDS: usize = 4;

pub const PROCESS_WORDS: usize = HEAD_WORDS + SIGNALS as usize * ACTION_WORDS;

pub const PROCESS_TABLE: usize = PROCESS_PLACES * PROCESS_WORDS;

pub const THREAD_TABLE: usize = THREAD_PLACES * THREAD_WORDS;

// ---- bytes of a record

pub const RECORD_PROCESS: usize = 0;

pub const RECORD_THREAD: usize = 4;

pub const RECORD_SIGNAL: usize = 8;

pub const RECORD_CODE: usize = 12;

pub const RECORD_SENDER: usize = 16;

pub const RECORD_UID: usize = 20;

pub const RECORD_VALUE: usize = 24;

pub const RECORD_BYTES: usize = 32;

pub const BUFFER_BYTES: usize = BUFFER_RECORDS * RECORD_BYTES;

// ---- the C boundary: the calls in their documented order, from 1 on, so that a number left at 0 is no call

pub const CALL_CLEAR: u32 = 1;

pub const CALL_ADD_PROCESS: u32 = 2;

pub const CALL_ADD_THREAD: u32 = 3;

pub const CALL_END_PROCESS: u32 = 4;

pub const CALL_END_THREAD: u32 = 5;

pub const CALL_KILL: u32 = 6;

pub const CALL_SIGQUEUE: u32 = 7;

pub const CALL_SIGACTION: u32 = 8;

pub const CALL_SIGMASK: u32 = 9;

pub const CALL_SIGPENDING: u32 = 10;

pub const CALL_LOOK: u32 = 11;

pub const CALL_WHO: u32 = 12;

pub const CALL_TAKE: u32 = 13;

pub const CALL_SIGRETURN: u32 = 14;

// ---- the answers there: the first word of each, and the words of the longest

pub const ANSWER_DONE: u64 = 1;

pub const ANSWER_TESTED: u64 = 2;

pub const ANSWER_ACTED: u64 = 3;

pub const ANSWER_DROPPED: u64 = 4;

pub const ANSWER_ABSORBED: u64 = 5;

pub const ANSWER_MARKED: u64 = 6;

pub const ANSWER_KEPT: u64 = 7;

pub const ANSWER_OLD_ACTION: u64 = 8;

pub const ANSWER_OLD_MASK: u64 = 9;

pub const ANSWER_PENDING_SET: u64 = 10;

pub const ANSWER_NEXT_NOTHING: u64 = 11;

pub const ANSWER_NEXT_MARK: u64 = 12;

pub const ANSWER_NEXT_RECORD: u64 = 13;

pub const ANSWER_CAN_TAKE: u64 = 14;

pub const ANSWER_NONE_CAN: u64 = 15;

pub const ANSWER_NOTHING: u64 = 16;

pub const ANSWER_HANDLER: u64 = 17;

pub const ANSWER_END: u64 = 18;

pub const ANSWER_STOP: u64 = 19;

pub const ANSWER_NO_ACTION: u64 = 20;

pub const ANSWER_WORDS: usize = 12;
