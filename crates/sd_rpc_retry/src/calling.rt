//! Calls of procedures on other machines, and their answers.
ghost use Rattle.std.specs.Prelude.{◌≡◌, ◌<◌, ◌≤◌, ◌+◌, ◌*◌, ◌-◌, ◌^◌, length, IfOk, Err};
ghost use Rattle.sd_outside.specs.Causes.{Rose};
ghost use Rattle.sd_link.specs.Link.{Moves, last_tick};
ghost use Rattle.sd_rpc_retry.specs.declared.calling.CallError.TheVariants as error;
ghost use Rattle.sd_rpc_retry.specs.Lasting.{Lasts, Fails, most_asking_ticks};
ghost use Rattle.sd_rpc_retry.specs.Sending.{HandedFor, WaitedFor, asked_fails, IsAskedFault};
ghost use Rattle.sd_rpc_retry.specs.Calling.{AskFits};
ghost use Rattle.sd_rpc_retry.specs.Calls.{asked_as, CameOf, WasSent, IsTold, IsAnswerTo};

use crate::asking::{Asked, Tally, ask_counting};
use crate::question::Question;
use crate::reply::ReplyListener;
use sd_link::Link;
use sd_nfs_msg::{NfsArgs, NfsResult};
use sd_outside::{Addr, ByteList, FHandle, NoMemory};
use std::alloc::Global;

/// What is asked of another machine.
#[derive(Debug, Drop)]
pub enum Ask {
    /// The port at which a program's version is reached by UDP (RFC 1057, appendix A).
    Getport { prog: u32, vers: u32 },
    /// What the machine with this address is called (bootparams).
    Whoami { ip: u32 },
    /// Where a client, whose name has at most 255 bytes, finds the file that a key of at most 32 bytes stands for (bootparams).
    Getfile { client: ByteList, key: ByteList },
    /// The handle of the directory or file at a path of at most 1,024 bytes (RFC 1094, appendix A).
    Mnt { path: ByteList },
    /// A procedure of NFS (RFC 1094, section 2.2).
    Nfs(NfsArgs),
}

/// What was answered.
#[derive(Debug, Drop)]
pub enum Answer {
    /// The port, or 0 where the program isn't there.
    Port(u16),
    /// The machine's name and domain and the address of its router, with the address of who replied.
    Whoami {
        from: u32,
        client: ByteList,
        domain: ByteList,
        router: u32,
    },
    /// A server's name and address, and the path there, with the address of who replied.
    Getfile {
        from: u32,
        server: ByteList,
        ip: u32,
        path: ByteList,
    },
    /// The handle of what was mounted.
    Given(FHandle),
    /// What a procedure of NFS did.
    Nfs(NfsResult),
    /// MOUNT or NFS refused it with this status, which isn't 0.
    Refused {
        status: u32,
    },
}

/// Why there is no answer.
#[derive(Clone, Copy, Debug, PartialEq, Eq)]
pub enum CallError {
    /// All tries waited in vain.
    Timeout,
    /// So many packets came in one try that the call ended.
    Flood,
    /// The call was refused: 1 to 4 are the accept states of RFC 1057, section 8, 10 is RPC_MISMATCH, and 11 to 15 are AUTH_ERROR
    /// with the auth states 1 to 5.
    Denied { code: u32 },
    /// The link failed.
    LinkFault,
    /// Out of memory.
    NoMemory,
}

/// Who calls.
#[derive(Debug, Drop)]
pub struct Caller {
    /// Its address, and the port to which replies go.
    pub ip: u32,
    pub port: u16,
    /// The name of its machine, of at most 255 bytes.
    pub machine: ByteList,
    /// The number of the next call.
    pub next_xid: u32,
    /// How often a call is sent before the caller gives up: 1 to 64.
    pub tries: u32,
    /// How many ticks it waits for the answer to each: 1 to 1,000.
    pub wait: u64,
}

/// The answer that came of asking.
fn answer_of<T>(asked: Result<Asked<Result<T, u32>>, NoMemory>) -> Result<T, CallError>
    ensures { asked_as result ≡ asked }
{
    match asked {
        Ok(Asked::Answer(Ok(told))) => Ok(told),
        Ok(Asked::Answer(Err(code))) => Err(CallError::Denied { code }),
        Ok(Asked::Timeout) => Err(CallError::Timeout),
        Ok(Asked::Flood) => Err(CallError::Flood),
        Ok(Asked::Fault) => Err(CallError::LinkFault),
        Err(NoMemory) => Err(CallError::NoMemory),
    }
}

impl Caller {
    /// Sends the call that is next, and waits for its reply.
    fn send_call<L: Link, Q: Question>(
        &self,
        alloc: Global,
        link: &mut L,
        dst: Addr,
        question: &Q,
        tally: &mut Tally,
    ) -> Result<Asked<Result<Q::Told, u32>>, NoMemory>
        requires tries { self.now.tries ≤ 64 }
        requires wait { self.now.wait ≤ 1000 }
        requires machine { length self.now.machine ≤ 255 }
        requires fits { AskFits (Q.ask question.now) }
        ensures told { IfOk result (λ came. Moves (L.told link.old) (L.told link.new) (CameOf self.now dst (Q.ask question.now) Q.shown came)) }
        ensures tallied { Moves (L.told link.old) (L.told link.new) (WasSent self.now dst (Q.ask question.now) tally.new result) }
        ensures found { IfOk result (IsTold self.now dst (Q.ask question.now) Q.shown) }
        ensures most { tally.new.sends ≤ self.now.tries }
        ensures began { 0 < tally.new.sends → L.clock link.old ≤ tally.new.last }
        ensures ended { 0 < tally.new.sends → tally.new.last ≤ L.clock link.new }
        ensures low { tally.new.last ≤ last_tick }
        ensures handed { IfOk result (λ came. HandedFor came (L.handed link.old) (L.handed link.new)) }
        ensures waited { IfOk result (λ came. WaitedFor (self.now.tries * self.now.wait) came (L.clock link.old) (L.clock link.new)) }
        ensures counts { L.handed link.old ≤ L.handed link.new }
        ensures later { L.clock link.old ≤ L.clock link.new }
        ensures lasts { Lasts most_asking_ticks (L.told link.old) (L.told link.new) }
        ensures fails { Fails (asked_fails result) (L.told link.old) (L.told link.new) }
        ensures fault { IfOk result (λ came. IsAskedFault came → Rose (L.faults link.old) (L.faults link.new)) }
        ensures faults { L.faults link.old ≤ L.faults link.new }
        ensures drained { L.drained link.new ≡ L.drained link.old }
    {
        *tally = Tally { sends: 0, last: 0 };
        let request = self.request(alloc, dst, question)?;
        let mut listener = ReplyListener {
            alloc,
            me: self.home(),
            xid: self.next_xid,
            dst,
            question,
        };
        ask_counting(link, &request, &mut listener, self.tries, self.wait, tally)
    }

    /// Calls a procedure there, and takes the first reply that tells something. Each call takes one number, also where memory is
    /// wanting. The question's type says what is answered; how often the call was sent, and when last, stands in `tally`.
    ///
    /// A reply goes to the caller's address and port, has the number of the call, comes from `dst`, or from port 111 of any
    /// machine where `dst` is 255.255.255.255, and its results are those of the procedure. What is asked of bootparams is
    /// relayed by a portmapper where `dst` is its port or a broadcast. MOUNT and NFS are told the caller's machine, by AUTH_UNIX of
    /// its user 0; all else goes without credentials.
    pub fn call<L: Link, Q: Question>(
        &mut self,
        alloc: Global,
        link: &mut L,
        dst: Addr,
        question: &Q,
        tally: &mut Tally,
    ) -> Result<Q::Told, CallError>
        requires xid { self.old.next_xid < 2 ^ 32 - 1 }
        requires tries { self.old.tries ≤ 64 }
        requires wait { self.old.wait ≤ 1000 }
        requires machine { length self.old.machine ≤ 255 }
        requires fits { AskFits (Q.ask question.now) }
        ensures xid { self.new ≡ record self.old { next_xid = self.old.next_xid + 1 } }
        // Over a link that tells, this came of the call: all tries in vain, a flood in one, a failure, or what the first match tells.
        ensures told { IfOk (asked_as result) (λ came. Moves (L.told link.old) (L.told link.new) (CameOf self.old dst (Q.ask question.now) Q.shown came)) }
        // It was sent so often, at once and then every `wait` ticks, whatever came of it.
        ensures tallied { Moves (L.told link.old) (L.told link.new) (WasSent self.old dst (Q.ask question.now) tally.new (asked_as result)) }
        ensures most { tally.new.sends ≤ self.old.tries }
        // Over every link an answer and a refusal are what some packet tells.
        ensures found { IfOk (asked_as result) (IsTold self.old dst (Q.ask question.now) Q.shown) }
        // An answer is of the kind that was asked for, and its texts are within their limits.
        ensures answers { IfOk result (λ told. IsAnswerTo (Q.ask question.now) (Q.shown told)) }
        // They need a packet, a flood its packets, and a timeout the whole time.
        ensures handed { IfOk (asked_as result) (λ came. HandedFor came (L.handed link.old) (L.handed link.new)) }
        ensures waited { IfOk (asked_as result) (λ came. WaitedFor (self.old.tries * self.old.wait) came (L.clock link.old) (L.clock link.new)) }
        ensures began { 0 < tally.new.sends → L.clock link.old ≤ tally.new.last }
        ensures ended { 0 < tally.new.sends → tally.new.last ≤ L.clock link.new }
        ensures low { tally.new.last ≤ last_tick }
        ensures counts { L.handed link.old ≤ L.handed link.new }
        ensures later { L.clock link.old ≤ L.clock link.new }
        ensures lasts { Lasts most_asking_ticks (L.told link.old) (L.told link.new) }
        // The link failed exactly where the answer says so, and then its count of faults rose.
        ensures fails { Fails (asked_fails (asked_as result)) (L.told link.old) (L.told link.new) }
        ensures fault { result ≡ Err error.LinkFault → Rose (L.faults link.old) (L.faults link.new) }
        ensures faults { L.faults link.old ≤ L.faults link.new }
        ensures drained { L.drained link.new ≡ L.drained link.old }
    {
        let asked = self.send_call(alloc, link, dst, question, tally);
        self.next_xid += 1;
        answer_of(asked)
    }
}
