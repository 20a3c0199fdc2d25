// The quota that fits, from a few numbers of a table.
ghost use Rattle.std.specs.Prelude.{◌≡◌, ◌≤◌};
ghost use Rattle.useful_limit.specs.Code.Parts.{Sums, ruled_need, rested_need, need_with, unruled_with, fits_at, short_at, short_with, fit_with};

use crate::{Fitted, Parts};
use quota::most_within;

// By the rule with b.
fn ruled_need(x: Parts, quota: u32) -> u64
    requires { Sums x × (quota ≤ 16777215) }
    ensures { result ≡ ruled_need x quota }
{
    if x.free {
        return x.peak;
    }
    x.serial + (quota as u64) * x.cost
}

// Over resting places, where the quota covers every stretch.
fn rested_need(x: Parts, quota: u32) -> u64
    ensures { result ≡ rested_need x quota }
{
    if x.stretch <= quota as u64 {
        x.resting
    } else {
        x.peak
    }
}

// The useful limit with a quota in the range.
pub(crate) fn need(x: Parts, quota: u32) -> u64
    requires { Sums x × (quota ≤ 16777215) }
    ensures { result ≡ need_with x quota }
{
    x.peak.min(ruled_need(x, quota).min(rested_need(x, quota)))
}

fn unruled(x: Parts) -> u64
    ensures { result ≡ unruled_with x }
{
    x.peak.min(rested_need(x, 16777215))
}

fn fits_at(x: Parts, quota: u32) -> Fitted
    requires { Sums x × (quota ≤ 16777215) }
    ensures { result ≡ fits_at x quota }
{
    Fitted::Fits {
        quota,
        memory: need(x, quota),
    }
}

fn short_at(x: Parts, quota: u32) -> Fitted
    requires { Sums x × (quota ≤ 16777215) }
    ensures { result ≡ short_at x quota }
{
    Fitted::Short {
        quota,
        memory: need(x, quota),
    }
}

// Where none fits: the limit rises with the quota up to where every stretch is covered, and from there on.
fn short(x: Parts) -> Fitted
    requires { Sums x }
    ensures { result ≡ short_with x }
{
    let least = x.least;
    let cover = (least as u64).max(x.stretch);
    if 16777215 < cover {
        return short_at(x, least);
    }
    let quota = cover as u32;
    if need(x, quota) < need(x, least) {
        return short_at(x, quota);
    }
    short_at(x, least)
}

pub(crate) fn fit(x: Parts, memory: u64) -> Fitted
    requires { Sums x }
    ensures { result ≡ fit_with x memory }
{
    if unruled(x) <= memory {
        return fits_at(x, 16777215);
    }
    if x.free {
        return short(x);
    }
    let serial = x.serial;
    if memory < serial {
        return short(x);
    }
    let most = most_within(x.cost, memory - serial);
    if most < x.least {
        return short(x);
    }
    fits_at(x, most)
}
