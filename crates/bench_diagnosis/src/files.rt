// The rule files and the topology of a chassis with processors and memories.
use std::alloc::{AllocError, Global};

/// The processors' rules: the cache may show both reports, the core must show the first.
pub const PROCESSORS: &str = "event fault.cpu.cache@chassis/cpu, FITrate=200;\
event fault.cpu.core@chassis/cpu, FITrate=100;\
event ereport.cpu.ue@chassis/cpu, within=5s;\
event ereport.cpu.wd@chassis/cpu, within=5s;\
prop fault.cpu.core@chassis/cpu (A)-> ereport.cpu.ue@chassis/cpu;\
prop fault.cpu.cache@chassis/cpu (0)-> ereport.cpu.ue@chassis/cpu, ereport.cpu.wd@chassis/cpu;";

/// The memories' rules: two upsets within an hour are reported, and tell of a fault.
pub const MEMORIES: &str = "event upset.mem.ce@chassis/dimm, engine=serd.mem.ce;\
event fault.mem.dimm@chassis/dimm, FITrate=4000;\
event ereport.mem.ce@chassis/dimm, within=1s;\
event ereport.mem.thr@chassis/dimm, within=0s;\
event ereport.mem.ue@chassis/dimm, within=1s;\
engine serd.mem.ce@chassis/dimm, N=2, T=1h, trip=ereport.mem.thr;\
prop upset.mem.ce@chassis/dimm -> ereport.mem.ce@chassis/dimm;\
prop fault.mem.dimm@chassis/dimm (0)-> ereport.mem.ue@chassis/dimm, ereport.mem.thr@chassis/dimm;";

/// The text of a topology: a chassis with so many processors and memories.
pub fn parts_text(alloc: Global, cpus: u32, dimms: u32) -> Result<String, AllocError> {
    let mut text = String::from_str(alloc, "hc:///chassis=0\n")?;
    for cpu in 0..cpus {
        write!(text, "hc:///chassis=0/cpu={cpu}\n")?;
    }
    for dimm in 0..dimms {
        write!(text, "hc:///chassis=0/dimm={dimm}\n")?;
    }
    Ok(text)
}
