//! The programs of the folder `examples`.

/// Readings of thermometers.
pub(crate) const TELEMETRY: &str =
    r#"// Readings of several thermometers, in tenths of a degree. Their range is from -40 to 125 degrees; a
// number beyond that is a failure of the sensor, and no temperature.

type Reading = int64 second, rstring sensor, int32 tenths;

// What is known of a sensor with each of its readings: how many it has given, the least, the greatest,
// and their mean, cut off toward zero.
type Running = int64 second, rstring sensor, int32 tenths,
               int64 count, int32 least, int32 greatest, int32 mean;

boolean isMeasured(int32 tenths) {
  return tenths >= -400 && tenths <= 1250;
}

// The readings above a limit.
composite Above(output High; input Readings) {
  param expression<int32> $limit;
  graph
    stream<Readings> High = Filter(Readings) { param filter: tenths > $limit; }
}

// The statistics of each sensor, with each reading.
composite Statistics(output Known; input Readings) {
  graph
    stream<Running> Known = Custom(Readings) {
      logic
        state: {
          mutable map<rstring, tuple<int64 count, int64 sum, int32 least, int32 greatest>> sensors;
        }
        onTuple Readings: {
          if (!has(sensors, sensor)) {
            sensors[sensor] = {count = 0l, sum = 0l, least = tenths, greatest = tenths};
          }
          sensors[sensor].count += 1l;
          sensors[sensor].sum += (int64)tenths;
          sensors[sensor].least = min(sensors[sensor].least, tenths);
          sensors[sensor].greatest = max(sensors[sensor].greatest, tenths);
          submit({second = second, sensor = sensor, tenths = tenths,
                  count = sensors[sensor].count,
                  least = sensors[sensor].least,
                  greatest = sensors[sensor].greatest,
                  mean = (int32)(sensors[sensor].sum / sensors[sensor].count)}, Known);
        }
    }
}

composite Main {
  param
    expression<int32> $jump : 60;  // so far from the mean of its sensor is a reading an alert
    expression<int64> $known : 5l; // once so many readings are known
  graph
    stream<Reading> All = FileSource() { param file: "readings.csv"; format: csv; }
    stream<All> Measured = Filter(All) { param filter: isMeasured(tenths); }
    stream<All> Failures = Filter(All) { param filter: !isMeasured(tenths); }
    stream<All> Warm = Above(Measured) { param limit: 250; }
    stream<All> Hot = Above(Measured) { param limit: 400; }
    stream<Running> Known = Statistics(Measured);
    stream<Known> Alerts = Filter(Known) {
      param filter: count > $known && abs(tenths - mean) >= $jump;
    }
    (stream<Alerts> Falls; stream<Alerts> Rises) = Split(Alerts) {
      param index: tenths < mean ? 0 : 1;
    }
    () as FailuresOut = FileSink(Failures) { param file: "failures.csv"; format: csv; }
    () as WarmOut = FileSink(Warm) { param file: "warm.csv"; format: csv; }
    () as HotOut = FileSink(Hot) { param file: "hot.csv"; format: csv; }
    () as KnownOut = FileSink(Known) { param file: "statistics.csv"; format: csv; }
    () as FallsOut = FileSink(Falls) { param file: "falls.csv"; format: csv; }
    () as RisesOut = FileSink(Rises) { param file: "rises.csv"; format: csv; }
}
"#;

/// Trades and their values.
pub(crate) const TRADES: &str =
    r#"/* Trades with their prices in cents. Their values go to a file each for small, middle and large ones,
   cancelled trades to another, and a last one says what each account holds of each symbol. */
namespace demo.trades;

type Trade = int64 second, rstring account, rstring symbol, boolean isBuy, int64 cents, int32 quantity;
type ValuedTrade = int64 second, rstring account, rstring symbol, boolean isBuy, int64 value, int64 fee;
type Holding = rstring account, rstring symbol, int64 quantity;

// The fee of a trade: so many hundredths of a percent of its value, and no less than `least`.
int64 feeOf(int64 value, int64 hundredths, int64 least) {
  return max(value * hundredths / 10000l, least);
}

// The trades of a quantity and a price that are above 0, with their values.
composite Values(output Valued; input Trades) {
  param
    expression<int64> $hundredths : 25l;
    expression<int64> $leastFee : 100l;
  graph
    stream<ValuedTrade> Valued = Functor(Trades) {
      param filter: quantity > 0 && cents > 0l;
      output Valued:
        value = cents * (int64)quantity,
        fee = feeOf(cents * (int64)quantity, $hundredths, $leastFee);
    }
}

composite Main {
  param
    expression<int64> $middle : 1000l * 100l;
    expression<int64> $large : 10000l * 100l;
  graph
    stream<Trade> Trades = FileSource() { param file: "trades.csv"; format: csv; }
    stream<Trades> Cancelled = Filter(Trades) { param filter: quantity <= 0 || cents <= 0l; }
    stream<ValuedTrade> Valued = Values(Trades) { param leastFee: 150l; }
    (stream<Valued> Small; stream<Valued> Middle; stream<Valued> Large) = Split(Valued) {
      param index: value >= $large ? 2 : value >= $middle ? 1 : 0;
    }
    // What each account holds once all trades are in, by account and symbol.
    stream<Holding> Holdings = Custom(Trades) {
      logic
        state: { mutable map<rstring, map<rstring, int64>> held; }
        onTuple Trades: {
          if (quantity > 0 && cents > 0l) {
            if (!has(held, account)) held[account] = {};
            if (!has(held[account], symbol)) held[account][symbol] = 0l;
            held[account][symbol] += isBuy ? (int64)quantity : -(int64)quantity;
          }
        }
        onPunct Trades: {
          if (currentPunct() == Sys.FinalMarker) {
            for (rstring account in held) {
              for (rstring symbol in held[account]) {
                submit({account = account, symbol = symbol, quantity = held[account][symbol]}, Holdings);
              }
            }
          }
        }
    }
    () as CancelledOut = FileSink(Cancelled) { param file: "cancelled.csv"; format: csv; }
    () as SmallOut = FileSink(Small) { param file: "small.csv"; format: csv; }
    () as MiddleOut = FileSink(Middle) { param file: "middle.csv"; format: csv; }
    () as LargeOut = FileSink(Large) { param file: "large.csv"; format: csv; }
    () as HoldingsOut = FileSink(Holdings) { param file: "holdings.csv"; format: csv; }
}
"#;

/// The log of a server.
pub(crate) const LOGS: &str =
    r#"// The log of a web server, in the combined log format: a line has the host, two names, the time in
// brackets, the request in quotes, the status of the answer, how many bytes it had, and in quotes the
// page that led there and the browser.
//
//   10.0.0.7 - anna [04/May/2026:08:00:05 +0000] "GET /cart/show HTTP/1.1" 200 5120 "-" "curl/8.5.0"
//
// Such lines have commas and quotes in them. In lines.csv each is one text in quotes:
//
//   sed 's/"/""/g; s/.*/"&"/' access.log >lines.csv

type Request = rstring host, rstring time, rstring method, rstring path, int32 status, int64 bytes;
type Usage = rstring path, int64 requests, int64 failures, int64 bytes;

// The first place from `from` on at which a text has a blank, or else its length.
int32 blankFrom(rstring text, int32 from) {
  mutable int32 at = from;
  while (at < length(text) && substring(text, at, 1) != " ") at += 1;
  return at;
}

// The word of a number in a line, counted from 0. Words are separated by a blank each, and the words
// that a line doesn't have are empty.
rstring word(rstring line, int32 number) {
  mutable int32 from = 0;
  mutable int32 passed = 0;
  while (passed < number) {
    from = blankFrom(line, from) + 1;
    if (from > length(line)) return "";
    passed += 1;
  }
  return substring(line, from, blankFrom(line, from) - from);
}

boolean isNumber(rstring text) {
  mutable int32 at = 0;
  while (at < length(text)) {
    if (substring(text, at, 1) < "0" || substring(text, at, 1) > "9") return false;
    at += 1;
  }
  return at > 0 && at < 18;
}

// The number that decimal digits spell. Where the server writes `-`, there were no bytes.
int64 numberOf(rstring text) {
  map<rstring, int64> digits = {"0": 0l, "1": 1l, "2": 2l, "3": 3l, "4": 4l,
                                "5": 5l, "6": 6l, "7": 7l, "8": 8l, "9": 9l};
  mutable int64 number = 0l;
  mutable int32 at = 0;
  if (text == "-") return 0l;
  while (at < length(text)) {
    number = number * 10l + digits[substring(text, at, 1)];
    at += 1;
  }
  return number;
}

// The ninth and tenth word of a request are its status and its bytes. What scanners send has others there.
boolean isRequest(rstring line) {
  return isNumber(word(line, 8)) && (word(line, 9) == "-" || isNumber(word(line, 9)));
}

// A path without what follows a question mark.
rstring plainPath(rstring path) {
  mutable int32 at = 0;
  while (at < length(path) && substring(path, at, 1) != "?") at += 1;
  return substring(path, 0, at);
}

composite Main {
  param
    expression<int64> $large : 100000l;
  graph
    stream<rstring line> Lines = FileSource() { param file: "lines.csv"; format: csv; }
    stream<Lines> Others = Filter(Lines) { param filter: !isRequest(line); }
    stream<Request> Requests = Functor(Lines) {
      param filter: isRequest(line);
      output Requests:
        host = word(line, 0),
        time = substring(word(line, 3), 1, 20),
        method = substring(word(line, 5), 1, 8),
        path = plainPath(word(line, 6)),
        status = (int32)numberOf(word(line, 8)),
        bytes = numberOf(word(line, 9));
    }
    (stream<Requests> Refused; stream<Requests> Failed) = Split(Requests) {
      param index: status / 100 == 5 ? 1 : status / 100 == 4 ? 0 : -1;
    }
    stream<Requests> Large = Filter(Requests) { param filter: bytes >= $large; }
    // What each path was asked for, once all lines are in, by path.
    stream<Usage> Paths = Custom(Requests) {
      logic
        state: { mutable map<rstring, tuple<int64 requests, int64 failures, int64 bytes>> paths; }
        onTuple Requests: {
          if (!has(paths, path)) paths[path] = {requests = 0l, failures = 0l, bytes = 0l};
          paths[path].requests += 1l;
          if (status >= 500) paths[path].failures += 1l;
          paths[path].bytes += bytes;
        }
        onPunct Requests: {
          if (currentPunct() == Sys.FinalMarker) {
            for (rstring path in paths) {
              submit({path = path, requests = paths[path].requests,
                      failures = paths[path].failures, bytes = paths[path].bytes}, Paths);
            }
          }
        }
    }
    () as OthersOut = FileSink(Others) { param file: "others.csv"; format: csv; }
    () as RefusedOut = FileSink(Refused) { param file: "refused.csv"; format: csv; }
    () as FailedOut = FileSink(Failed) { param file: "failed.csv"; format: csv; }
    () as LargeOut = FileSink(Large) { param file: "large.csv"; format: csv; }
    () as PathsOut = FileSink(Paths) { param file: "paths.csv"; format: csv; }
}
"#;

/// Readings of which the means are wanted.
pub(crate) const AVERAGES: &str =
    r#"// The mean of the readings of each thermometer, ten by ten, in tenths of a degree.

type Reading = int64 second, rstring sensor, int32 tenths;

composite Main {
  graph
    stream<Reading> All = FileSource() { param file: "readings.csv"; format: csv; }
    stream<All> Measured = Filter(All) { param filter: tenths >= -400 && tenths <= 1250; }
    // Each sensor has a window of its own, which is emptied once it holds ten readings.
    stream<rstring sensor, int64 second, int64 sum, int32 number> Sums = Aggregate(Measured) {
      window Measured: tumbling, count(10), partitioned;
      param partitionBy: sensor;
      output Sums: sensor = Any(sensor), second = Last(second), sum = Sum((int64)tenths), number = Count();
    }
    stream<rstring sensor, int64 second, int32 mean> Means = Functor(Sums) {
      output Means: mean = (int32)(sum / (int64)number); // cut off toward zero
    }
    () as MeansOut = FileSink(Means) { param file: "means.csv"; format: csv; }
}
"#;

/// Trades with the highest and lowest prices of late.
pub(crate) const HIGHEST: &str =
    r#"// With each trade the highest and the lowest price, in cents, among the last ten trades of its symbol.

type Trade = int64 second, rstring symbol, int64 cents;

composite Main {
  graph
    stream<Trade> Trades = FileSource() { param file: "trades.csv"; format: csv; }
    // What isn't assigned is the newest trade's.
    stream<int64 second, rstring symbol, int64 cents, int64 highest, int64 lowest> Range = Aggregate(Trades) {
      window Trades: sliding, count(10), count(1), partitioned;
      param partitionBy: symbol;
      output Range: highest = Max(cents), lowest = Min(cents);
    }
    () as RangeOut = FileSink(Range) { param file: "range.csv"; format: csv; }
}
"#;

/// Sales and what each shop took of late.
pub(crate) const SALES: &str =
    r#"// Sales of several shops, with their prices in cents. With each sale it is told what its shop took with its
// last three: of busy shops in one file, of quiet ones in another. Sales of many pieces, of whatever shop, go
// to a file of their own.

type Sale = int64 second, rstring shop, int64 cents, int64 pieces;

// The sales of so many pieces or more. A price of 0 or less is a mistake at the till.
composite AtLeast(output Kept; input All) {
  param expression<int64> $least : 1l;
  graph
    stream<All> Kept = Filter(All) { param filter: pieces >= $least && cents > 0l; }
}

composite Main {
  param
    expression<int64> $busy : 60l * 100l;
  graph
    stream<Sale> Sales = FileSource() { param file: "sales.csv"; format: csv; }
    stream<Sale> Sold = AtLeast(Sales);
    stream<Sale> Bulk = AtLeast(Sales) { param least: 20l; }
    stream<int64 second, rstring shop, int64 taken> Takings = Functor(Sold) {
      output Takings: taken = cents * pieces;
    }
    // Each shop has a window of its own. What isn't assigned is the newest sale's.
    stream<int64 second, rstring shop, int64 sum, int32 number> Sums = Aggregate(Takings) {
      window Takings: sliding, count(3), count(1), partitioned;
      param partitionBy: shop;
      output Sums: sum = Sum(taken), number = Count();
    }
    (stream<Sums> Quiet; stream<Sums> Busy) = Split(Sums) { param index: sum >= $busy ? 1 : 0; }
    () as QuietOut = FileSink(Quiet) { param file: "quiet.csv"; format: csv; }
    () as BusyOut = FileSink(Busy) { param file: "busy.csv"; format: csv; }
    () as BulkOut = FileSink(Bulk) { param file: "bulk.csv"; format: csv; }
}
"#;

/// Bookings of two offices, for fewer seats than they want.
pub(crate) const BOOKINGS: &str =
    r#"// Two offices book the seats of one boat, of which there are five. Who comes first has them, so it depends on the
// order in which the bookings of both came. `run` takes all of the north office and then those of the south one,
// and `replay` takes them in the order of a record.

type Booking = int64 number, rstring office, rstring name, int32 seats;

composite Main {
  graph
    stream<Booking> North = FileSource() { param file: "north.csv"; format: csv; }
    stream<Booking> South = FileSource() { param file: "south.csv"; format: csv; }
    stream<Booking> Bookings = Union(North; South);
    // A booking has all of its seats, or none.
    (stream<Booking> Booked; stream<Booking> Refused) as Seats = Custom(Bookings) {
      logic
        state: { mutable int32 free = 5; }
        onTuple Bookings: {
          if (seats <= free) {
            free -= seats;
            submit(Bookings, Booked);
          } else submit(Bookings, Refused);
        }
    }
    () as BookedOut = FileSink(Booked) { param file: "booked.csv"; format: csv; }
    () as RefusedOut = FileSink(Refused) { param file: "refused.csv"; format: csv; }
}
"#;

/// Readings of which one is no number.
pub(crate) const BAD_ROW: &str =
    r#"// Readings of a thermometer, one of which isn't a number: parsing is strict where nothing else is said, so
// the run ends there with a fault. With `parsing: permissive;` that row would be passed over.
composite Main {
  graph
    stream<int64 second, rstring sensor, int32 tenths> Readings = FileSource() {
      param
        file: "readings.csv";
        format: csv;
    }
    stream<Readings> Warm = Filter(Readings) { param filter: tenths > 200; }
    () as WarmOut = FileSink(Warm) { param file: "warm.csv"; format: csv; }
}
"#;

/// Downloads of which one took no time.
pub(crate) const DIVISION: &str =
    r#"// Downloads with their bytes and milliseconds. One took less than a millisecond, which is a division by
// zero: the rates end there with a fault, and the large downloads, which need no rate, go on to their end.

type Download = rstring file, int64 bytes, int64 millis;

composite Speeds(output Rates; input Downloads) {
  graph
    stream<rstring file, int64 rate> Rates = Functor(Downloads) {
      output Rates: rate = bytes / millis; // bytes in a millisecond
    }
}

composite Main {
  graph
    stream<Download> Downloads = FileSource() { param file: "downloads.csv"; format: csv; }
    stream<Downloads> Large = Filter(Downloads) { param filter: bytes >= 1000000l; }
    stream<rstring file, int64 rate> Speed = Speeds(Downloads);
    () as LargeOut = FileSink(Large) { param file: "large.csv"; format: csv; }
    () as RatesOut = FileSink(Speed) { param file: "rates.csv"; format: csv; }
}
"#;

/// A program that is refused.
pub(crate) const WRONG: &str =
    r#"// `price` is an int64 and `10` an int32: no number is made another type by itself. `10l` is meant.
composite Main {
  graph
    stream<int64 price> T = FileSource() { param file: "t.csv"; format: csv; }
    stream<int64 price> B = Filter(T) { param filter: price > 10; }
    () as Out = FileSink(B) { param file: "o.csv"; format: csv; }
}
"#;
