// Two flows and six requests, all for Green: which colours they get, and what is left.
#![tactic(auto)]

mod lines;
mod profile;
mod report;
mod requests;
mod stop;

use crate::report::write_report;
use tokens::bucket::Bucket;
use tokens::counting::CountingBucket;

fn main(rt: HostRuntime) -> anyhow::Result<()> {
    let mut text = String::new(rt.alloc());
    let mut buckets = [CountingBucket::make(0); 4];
    write_report(&mut buckets, &mut text)?;
    rt.print(&text)?;
    Ok(())
}
