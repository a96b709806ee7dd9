//! Texts of the same points and lines, written out.
use crate::shown_points::{point, reading, seen};
use office_pages::{LineSeen, Seen, Tally, json, metrics, page};
use point_list::Role;
use run_beat::Slots;
use std::alloc::{AllocError, Global};
use std::test::Fail;
use telling::{Trial, twice};

const METRICS: &str = "# TYPE kimjolde_line_up gauge
# HELP kimjolde_line_up Whether the line is up.
kimjolde_line_up{line=\"a\\\\b\\\"c\\nö\"} 1
kimjolde_line_up{line=\"d\"} 0
# TYPE kimjolde_line_rounds counter
# HELP kimjolde_line_rounds Rounds that ended uncut, with or without the readings of a silent device.
kimjolde_line_rounds_total{line=\"a\\\\b\\\"c\\nö\"} 1
kimjolde_line_rounds_total{line=\"d\"} 0
# TYPE kimjolde_line_rounds_cut counter
# HELP kimjolde_line_rounds_cut Rounds that were cut.
kimjolde_line_rounds_cut_total{line=\"a\\\\b\\\"c\\nö\"} 2
kimjolde_line_rounds_cut_total{line=\"d\"} 0
# TYPE kimjolde_line_queries counter
# HELP kimjolde_line_queries Queries that were sent.
kimjolde_line_queries_total{line=\"a\\\\b\\\"c\\nö\"} 3
kimjolde_line_queries_total{line=\"d\"} 0
# TYPE kimjolde_line_readings counter
# HELP kimjolde_line_readings Readings that were recorded.
kimjolde_line_readings_total{line=\"a\\\\b\\\"c\\nö\"} 4
kimjolde_line_readings_total{line=\"d\"} 0
# TYPE kimjolde_line_exceptions counter
# HELP kimjolde_line_exceptions Queries that were answered by an exception.
kimjolde_line_exceptions_total{line=\"a\\\\b\\\"c\\nö\"} 5
kimjolde_line_exceptions_total{line=\"d\"} 0
# TYPE kimjolde_line_refused_frames counter
# HELP kimjolde_line_refused_frames Frames that were refused, since they answered no query.
kimjolde_line_refused_frames_total{line=\"a\\\\b\\\"c\\nö\"} 6
kimjolde_line_refused_frames_total{line=\"d\"} 0
# TYPE kimjolde_line_last_round_seconds gauge
# UNIT kimjolde_line_last_round_seconds seconds
# HELP kimjolde_line_last_round_seconds How long the last round that ended uncut took.
kimjolde_line_last_round_seconds{line=\"a\\\\b\\\"c\\nö\"} 7.089
# TYPE kimjolde_store_faults counter
# HELP kimjolde_store_faults Calls that the store refused.
kimjolde_store_faults_total 8
# TYPE kimjolde_point_value gauge
# HELP kimjolde_point_value The number of the last reading, with its scale.
kimjolde_point_value{device=\"m\\\\<\\\"1\\\"\",point=\"e\"} 6500.0
# TYPE kimjolde_point_time_seconds gauge
# UNIT kimjolde_point_time_seconds seconds
# HELP kimjolde_point_time_seconds When the slot of the last reading began, since 1970.
kimjolde_point_time_seconds{device=\"m\\\\<\\\"1\\\"\",point=\"e\"} 1764300000
kimjolde_point_time_seconds{device=\"m\\\\<\\\"1\\\"\",point=\"f\"} 1764299940
# TYPE kimjolde_point_accumulated gauge
# HELP kimjolde_point_accumulated How far a counter went by its readings, with its scale.
kimjolde_point_accumulated{device=\"m\\\\<\\\"1\\\"\",point=\"e\"} 66572.5
# EOF
";

const JSON: &str = "{\"points\":[\
    {\"device\":\"m\\\\<\\\"1\\\"\",\"last\":{\"slot\":29405000,\"time\":\"2025-11-28T03:20:00Z\",\"value\":\"6500.0\",\"void\":true},\
    \"name\":\"e\",\"role\":\"counter\",\"total\":\"66572.5\"},\
    {\"device\":\"m\\\\<\\\"1\\\"\",\"last\":{\"slot\":29404999,\"time\":\"2025-11-28T03:19:00Z\",\"value\":null,\"void\":false},\
    \"name\":\"f\",\"role\":\"gauge\",\"total\":null},\
    {\"device\":\"m\\\\<\\\"1\\\"\",\"last\":null,\"name\":\"g\",\"role\":\"setting\",\"total\":null}]}\n";

const ROWS: &str =
    "<tr><th scope=\"row\">e</th><td class=\"number\">6500.0<span class=\"mark\">void</span></td>\
    <td class=\"number\">66572.5</td><td><time datetime=\"2025-11-28T03:20:00Z\">2025-11-28 03:20:00 UTC</time></td>\
    <td class=\"number\">29405000</td><td>counter</td></tr>\n\
    <tr><th scope=\"row\">f</th><td class=\"number\"><span class=\"soft\">not implemented</span></td>\
    <td></td><td><time datetime=\"2025-11-28T03:19:00Z\">2025-11-28 03:19:00 UTC</time></td>\
    <td class=\"number\">29404999</td><td>gauge</td></tr>\n\
    <tr><th scope=\"row\">g</th><td class=\"number soft\">no reading</td><td></td><td></td><td></td><td>setting</td></tr>\n";

/// Of five slots the third one has no reading and the fourth one is voided.
const CURVE: &str =
    "<tr class=\"curve\"><td colspan=\"6\"><svg viewBox=\"0 0 960 120\" role=\"img\" aria-label=\"e\">\
    <path class=\"axis\" d=\"M0 119.5h960\"/><path class=\"trace\" d=\"M8 112h0L244 60M716 8h0L952 86\"/>\
    <circle class=\"void\" cx=\"716\" cy=\"8\" r=\"4\"/></svg>\
    <p class=\"range\">0.0 to 0.4, slots 10 to 14</p></td></tr>\n";

const LINES: [LineSeen<'static>; 2] = [
    LineSeen {
        name: "a\\b\"c\nö",
        address: "h:502",
        is_up: true,
        tally: Tally {
            rounds: 1,
            cut: 2,
            queries: 3,
            readings: 4,
            exceptions: 5,
            refused: 6,
            last_round: Some(7_089),
        },
    },
    LineSeen {
        name: "d",
        address: "h:503",
        is_up: false,
        tally: Tally {
            rounds: 0,
            cut: 0,
            queries: 0,
            readings: 0,
            exceptions: 0,
            refused: 0,
            last_round: None,
        },
    },
];

fn metrics_of(alloc: Global, points: &[Seen], slots: Slots) -> Result<String, AllocError> {
    let mut text = String::new(alloc);
    metrics::push_office(&mut text, &LINES, 8)?;
    text.push_str(metrics::values())?;
    for seen in points {
        metrics::push_value(alloc, &mut text, seen)?;
    }
    text.push_str(metrics::times())?;
    for seen in points {
        metrics::push_time(&mut text, seen, slots)?;
    }
    text.push_str(metrics::totals())?;
    for seen in points {
        metrics::push_total(alloc, &mut text, seen)?;
    }
    text.push_str(metrics::end())?;
    Ok(text)
}

fn json_of(alloc: Global, points: &[Seen], slots: Slots) -> Result<String, AllocError> {
    let mut text = String::from_str(alloc, json::begin())?;
    for (place, seen) in points.iter().enumerate() {
        if place > 0 {
            text.push_str(json::between())?;
        }
        json::push_point(alloc, &mut text, seen, slots)?;
    }
    text.push_str(json::end())?;
    Ok(text)
}

fn rows_of(alloc: Global, points: &[Seen], slots: Slots) -> Result<String, AllocError> {
    let mut text = String::new(alloc);
    for seen in points {
        page::push_point(alloc, &mut text, seen, slots)?;
    }
    Ok(text)
}

fn texts(trial: &Trial<'_>) -> Result<(), AllocError> {
    let alloc = trial.alloc();
    let Some(slots) = Slots::new(60) else {
        return Err(AllocError);
    };
    let points = seen(alloc)?;
    let metrics = metrics_of(alloc, &points, slots)?;
    trial.told(&"metrics", &metrics.as_str(), &METRICS);
    let json = json_of(alloc, &points, slots)?;
    trial.told(&"json", &json.as_str(), &JSON);
    let rows = rows_of(alloc, &points, slots)?;
    trial.told(&"rows", &rows.as_str(), &ROWS);
    Ok(())
}

#[test]
fn points_and_lines_as_texts(rt: HostRuntime) -> Result<(), Fail> {
    Ok(twice!(rt, texts)?)
}

fn curve(trial: &Trial<'_>) -> Result<(), AllocError> {
    let alloc = trial.alloc();
    let rows = [
        reading(alloc, 10, 0, false)?,
        reading(alloc, 11, 2, false)?,
        reading(alloc, 13, 4, true)?,
        reading(alloc, 14, 1, false)?,
    ];
    let mut text = String::new(alloc);
    page::push_curve(alloc, &mut text, &point("e", Role::Gauge)?, &rows, 10, 14)?;
    trial.told(&"curve", &text.as_str(), &CURVE);
    Ok(())
}

#[test]
fn a_curve_has_gaps(rt: HostRuntime) -> Result<(), Fail> {
    Ok(twice!(rt, curve)?)
}
