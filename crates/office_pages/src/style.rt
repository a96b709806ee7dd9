//! How the pages look.

/// The style of a page, for its head: light and dark as the reader has it, and tables that scroll in boxes of their own
/// where the window is narrow.
pub(crate) const STYLE: &str = "<style>
:root{color-scheme:light dark;--back:#fbfaf8;--card:#fff;--ink:#1d1f23;--soft:#5e646e;--line:#dedbd5;
--good:#17693a;--good-back:#dff3e5;--bad:#a3171f;--bad-back:#fbe3e2;--curve:#1f5fae;--head:#f3f1ed}
@media (prefers-color-scheme:dark){:root{--back:#15171a;--card:#1d2024;--ink:#e7e6e3;--soft:#a2a8b2;--line:#353a41;
--good:#86d9a3;--good-back:#173524;--bad:#ff9c96;--bad-back:#451d1f;--curve:#82b6f5;--head:#24282d}}
*{box-sizing:border-box}
body{margin:0 auto;padding:1rem;max-width:76rem;background:var(--back);color:var(--ink);
font:1rem/1.45 system-ui,-apple-system,'Segoe UI',Roboto,sans-serif}
h1{margin:0;font-size:1.5rem;overflow-wrap:anywhere}
h2{margin:1.75rem 0 .5rem;font-size:1.1rem}
a{color:inherit;text-underline-offset:.2em}
.when{margin:.25rem 0 0;color:var(--soft)}
.box{overflow-x:auto;background:var(--card);border:1px solid var(--line);border-radius:.5rem}
table{width:100%;border-collapse:collapse;font-variant-numeric:tabular-nums}
th,td{padding:.4rem .75rem;border-top:1px solid var(--line);text-align:left;vertical-align:baseline;white-space:nowrap}
thead th{border-top:0;white-space:normal;vertical-align:bottom;color:var(--soft);font-size:.85rem;font-weight:600}
tbody th{font-weight:600}
.number{text-align:right}
.device th{background:var(--head)}
.soft{color:var(--soft)}
.state{display:inline-block;padding:0 .55em;border-radius:1em;font-weight:600}
.up{background:var(--good-back);color:var(--good)}
.down{background:var(--bad-back);color:var(--bad)}
.mark{margin-left:.5em;padding:0 .45em;border-radius:1em;background:var(--bad-back);color:var(--bad);font-size:.85rem}
.curve td{padding-top:0;border-top:0}
.curve svg,.curve p{position:sticky;left:.75rem;width:min(100%,calc(100vw - 3.5rem))}
svg{display:block;height:auto}
.axis{stroke:var(--line);stroke-width:1;vector-effect:non-scaling-stroke}
.trace{fill:none;stroke:var(--curve);stroke-width:2;stroke-linecap:round;stroke-linejoin:round;
vector-effect:non-scaling-stroke}
.void{fill:var(--card);stroke:var(--bad);stroke-width:2;vector-effect:non-scaling-stroke}
.range{margin:0;color:var(--soft);font-size:.85rem}
@media (max-width:40rem){body{padding:.75rem}th,td{padding:.35rem .5rem}}
</style>";
