//! The examples of the repository, each with what it prints.
//!
//! A test cannot read files, so the sources and the texts of examples/ stand here again. `scripts/check_examples.py` tells
//! whether both are the same, and prints the constants anew with `--print`.

use super::{NONE_FAILS, expect};
use outer_world::Status;
use std::alloc::Global;
use std::process::Abort;
use std::test::Fail;

const COLLATZ: &str = "\
# The longest Collatz chain that starts below a limit. Each start is tried by itself, so the loop may run in parallel.

LIMIT = 500


def steps(number: int) -> int:
    count = 0
    while number != 1:
        number = number // 2 if number % 2 == 0 else 3 * number + 1
        count += 1
    return count


longest = 0
total = 0
@par(schedule='dynamic', chunk_size=16, num_threads=4)
for start in range(1, LIMIT):
    length = steps(start)
    longest = max(longest, length)
    total += length

# The least start whose chain is that long.
first = 1
while steps(first) < longest:
    first += 1

print('longest chain:', longest, 'steps, from', first)
print('steps in all:', total)
";

const COLLATZ_OUT: &str = "\
longest chain: 143 steps, from 327
steps in all: 26033
";

const DIGITS: &str = "\
# Statistics of the digit sums of many numbers, gathered in one object. Each of its fields is brought up to date by one
# operator alone, so the parallel loop gives what the loop in order gives.

class Statistics:
    \"\"\"How many values there were, their sum, the least and the greatest.\"\"\"
    count: int
    total: int
    least: int
    greatest: int

    def __init__(self, first: int):
        self.count = 1
        self.total = first
        self.least = first
        self.greatest = first

    def record(self, value: int):
        self.count += 1
        self.total += value
        self.least = min(self.least, value)
        self.greatest = max(self.greatest, value)

    def mean(self) -> int:
        return self.total // self.count


def digit_sum(number: int) -> int:
    total = 0
    while number > 0:
        total += number % 10
        number //= 10
    return total


sums = Statistics(digit_sum(1000))
@par
for number in range(1001, 3000):
    sums.record(digit_sum(number))

print('numbers:', sums.count)
print('least', sums.least, 'greatest', sums.greatest, 'mean', sums.mean(), sep=' | ')
";

const DIGITS_OUT: &str = "\
numbers: 2000
least | 1 | greatest | 29 | mean | 15
";

const FIRST: &str = "\
days = 365
hours = days * 24
minutes = hours * 60

print(minutes)
print(minutes * 60 - 1)
print(9223372036854775807 + 1)
";

const FIRST_OUT: &str = "\
525600
31535999
-9223372036854775808
";

const HISTOGRAM: &str = "\
# A histogram of the points in an examination: a line for each band of ten points, with a bar as long as the band is full.

BAND = 10
MOST = 100

points = [67, 82, 91, 45, 73, 88, 59, 100, 76, 64, 85, 91, 38, 70, 79, 95, 52, 83, 68, 74, 61, 77]


def count_bands(values: list[int]) -> list[int]:
    counts = [0] * (MOST // BAND + 1)
    for value in values:
        counts[value // BAND] += 1
    return counts


def padded(number: int, width: int) -> str:
    text = str(number)
    return ' ' * (width - len(text)) + text


counts = count_bands(points)
assert sum(counts) == len(points), 'a value is in no band'
print('points, and how many have so many:')
for band, count in enumerate(counts):
    if count > 0:
        print(padded(band * BAND, 3), '#' * count, count)
print('least', min(points), 'greatest', max(points), 'mean', sum(points) // len(points))
";

const HISTOGRAM_OUT: &str = "\
points, and how many have so many:
 30 # 1
 40 # 1
 50 ## 2
 60 #### 4
 70 ###### 6
 80 #### 4
 90 ### 3
100 # 1
least 38 greatest 100 mean 73
";

const MATRICES: &str = "\
# Matrices as lists of rows. Place (i, j) of the n-th power of a graph's matrix is the number of walks of n steps from i to j.

def product(left: list[list[int]], right: list[list[int]]) -> list[list[int]]:
    rows: list[list[int]] = []
    for row in left:
        sums = [0] * len(right[0])
        for k in range(len(right)):
            for j in range(len(sums)):
                sums[j] += row[k] * right[k][j]
        rows.append(sums)
    return rows


def identity(size: int) -> list[list[int]]:
    return [[1 if i == j else 0 for j in range(size)] for i in range(size)]


def power(matrix: list[list[int]], exponent: int) -> list[list[int]]:
    result = identity(len(matrix))
    while exponent > 0:
        if exponent % 2 == 1:
            result = product(result, matrix)
        matrix = product(matrix, matrix)
        exponent //= 2
    return result


# Four rooms: doors lead from each to the next and back, and one more from the last to the first.
doors = [[0, 1, 0, 0], [1, 0, 1, 0], [0, 1, 0, 1], [1, 0, 1, 0]]

for row in power(doors, 6):
    print(row)
print('walks of 30 steps from room 0 back to it:', power(doors, 30)[0][0])
print('product with the identity is the same:', product(doors, identity(4)) == doors)
";

const MATRICES_OUT: &str = "\
[9, 0, 9, 0]
[0, 18, 0, 9]
[18, 0, 18, 0]
[0, 18, 0, 9]
walks of 30 steps from room 0 back to it: 4782969
product with the identity is the same: True
";

const NUMBERS: &str = "\
# Small functions on whole numbers, most of them recursive: Fibonacci numbers, greatest common divisors, powers to a modulus.

def fibonacci(n: int) -> int:
    return n if n < 2 else fibonacci(n - 1) + fibonacci(n - 2)


def gcd(a: int, b: int) -> int:
    return abs(a) if b == 0 else gcd(b, a % b)


def power_mod(base: int, exponent: int, modulus: int) -> int:
    if exponent == 0:
        return 1
    half = power_mod(base, exponent // 2, modulus)
    square = half * half % modulus
    return square * base % modulus if exponent % 2 == 1 else square


def binary(n: int) -> str:
    return str(n) if n < 2 else binary(n // 2) + str(n % 2)


def moves(disks: int, source: int, target: int, trace: list[tuple[int, int]]):
    if disks > 0:
        spare = 6 - source - target
        moves(disks - 1, source, spare, trace)
        trace.append((source, target))
        moves(disks - 1, spare, target, trace)


print([fibonacci(n) for n in range(15)])
print(gcd(1071, 462), gcd(-48, 36), gcd(17, 5))
print(power_mod(3, 1000, 1000003), power_mod(2, 1000002, 1000003))
print(binary(2026), 0b11111101010)

trace: list[tuple[int, int]] = []
moves(3, 1, 3, trace)
print(len(trace), 'moves:', trace)
";

const NUMBERS_OUT: &str = "\
[0, 1, 1, 2, 3, 5, 8, 13, 21, 34, 55, 89, 144, 233, 377]
21 12 1
73216 1
11111101010 2026
7 moves: [(1, 3), (1, 2), (3, 2), (1, 3), (2, 1), (2, 3), (1, 3)]
";

const PIPELINES: &str = "\
# Pipelines: `|>` hands a value on, a generator hands on each of its items, and what follows `||>` may run in parallel.

class Total:
    items: int
    sum: int


def count_up(limit: int):
    for number in range(1, limit + 1):
        yield number


def divisible(number: int, divisor: int):
    if number % divisor == 0:
        yield number


def square(number: int) -> int:
    return number * number


def pairs(number: int):
    for other in range(1, number):
        yield number, other


def two_digits(pair: tuple[int, int]) -> int:
    return pair[0] * 10 + pair[1]


def add(number: int, total: Total):
    total.items += 1
    total.sum += number


12 |> count_up |> divisible(3) |> square |> print('is the square of a multiple of three')
[2, 3, 4] |> iter |> pairs |> two_digits |> print(end=' ')
print('are numbers of a digit and a smaller one')

total = Total(0, 0)
range(1, 1001) |> iter |> divisible(7) ||> square |> add(total)
print(total.items, 'squares, together', total.sum)
";

const PIPELINES_OUT: &str = "\
9 is the square of a multiple of three
36 is the square of a multiple of three
81 is the square of a multiple of three
144 is the square of a multiple of three
21 31 32 41 42 43 are numbers of a digit and a smaller one
142 squares, together 47262215
";

const PRIMES: &str = "\
# The primes below a limit, by the sieve of Eratosthenes: how many there are, the largest ones, and how many pairs of twins.

LIMIT = 5000


def sieve(limit: int) -> list[bool]:
    is_prime = [True] * limit
    is_prime[0] = False
    is_prime[1] = False
    candidate = 2
    while candidate * candidate < limit:
        if is_prime[candidate]:
            for multiple in range(candidate * candidate, limit, candidate):
                is_prime[multiple] = False
        candidate += 1
    return is_prime


is_prime = sieve(LIMIT)
primes = [number for number in range(LIMIT) if is_prime[number]]

twins = 0
for number in primes:
    if number + 2 < LIMIT and is_prime[number + 2]:
        twins += 1

print(len(primes), 'primes below', LIMIT)
print('the first:', primes[:10])
print('the last:', primes[-5:])
print(twins, 'pairs of twins')
";

const PRIMES_OUT: &str = "\
669 primes below 5000
the first: [2, 3, 5, 7, 11, 13, 17, 19, 23, 29]
the last: [4969, 4973, 4987, 4993, 4999]
126 pairs of twins
";

const SIMULATION: &str = "\
# A simulation on random numbers that are the same in each run: points thrown at a square and a walk on a line.
# The generator is the linear congruential one of 64 bits. Its product wraps, and its upper bits are the ones to use.

class Random:
    state: int

    def below(self, limit: int) -> int:
        self.state = self.state * 6364136223846793005 + 1442695040888963407
        return ((self.state >> 33) & 2147483647) % limit


def points_in_circle(random: Random, points: int, radius: int) -> int:
    inside = 0
    for _ in range(points):
        x = random.below(radius)
        y = random.below(radius)
        if x * x + y * y < radius * radius:
            inside += 1
    return inside


def walk(random: Random, turns: int) -> tuple[int, int]:
    place = 0
    farthest = 0
    for _ in range(turns):
        place += 1 if random.below(2) == 1 else -1
        farthest = max(farthest, abs(place))
    return place, farthest


random = Random(2026)
print('six throws:', [random.below(6) + 1 for _ in range(6)])
inside = points_in_circle(random, 2000, 1000000)
print(inside, 'of 2000 points in the circle, so pi is about', inside * 4000 // 2000, 'thousandths')
place, farthest = walk(random, 1000)
print('the walk ends at', place, 'and was at most', farthest, 'from home')
";

const SIMULATION_OUT: &str = "\
six throws: [4, 5, 2, 2, 3, 1]
1584 of 2000 points in the circle, so pi is about 3168 thousandths
the walk ends at -50 and was at most 51 from home
";

const SORTING: &str = "\
# Two ways to sort a list: insertion sort moves the values of the list itself, merge sort makes a new one.

def insertion_sort(values: list[int]):
    for place in range(1, len(values)):
        value = values[place]
        hole = place
        while hole > 0 and values[hole - 1] > value:
            values[hole] = values[hole - 1]
            hole -= 1
        values[hole] = value


def merged(left: list[int], right: list[int]) -> list[int]:
    result: list[int] = []
    i = 0
    j = 0
    while i < len(left) and j < len(right):
        if left[i] <= right[j]:
            result.append(left[i])
            i += 1
        else:
            result.append(right[j])
            j += 1
    return result + left[i:] + right[j:]


def merge_sort(values: list[int]) -> list[int]:
    if len(values) < 2:
        return values.copy()
    middle = len(values) // 2
    return merged(merge_sort(values[:middle]), merge_sort(values[middle:]))


values = [place * 37 % 101 - 50 for place in range(60)]
by_merging = merge_sort(values)
by_inserting = values.copy()
insertion_sort(by_inserting)

print('before:', values[:8])
print('after:', by_merging[:8])
print('both agree:', by_merging == by_inserting)
print('in order:', all([by_merging[i] <= by_merging[i + 1] for i in range(len(values) - 1)]))
";

const SORTING_OUT: &str = "\
before: [-50, -13, 24, -40, -3, 34, -30, 7]
after: [-50, -48, -47, -45, -44, -41, -40, -38]
both agree: True
in order: True
";

const WORDS: &str = "\
# Texts without methods: cutting a line into words, joining words, turning a word round, and finding the palindromes.

def split(line: str, separator: str) -> list[str]:
    words: list[str] = []
    start = 0
    for place in range(len(line)):
        if line[place] == separator:
            words.append(line[start:place])
            start = place + 1
    words.append(line[start:])
    return words


def join(words: list[str], separator: str) -> str:
    joined = ''
    for place, word in enumerate(words):
        joined += word if place == 0 else separator + word
    return joined


def turned(word: str) -> str:
    letters = [letter for letter in reversed(word)]
    return join(letters, '')


def shifted(letter: str, by: int) -> str:
    return chr((ord(letter) - ord('a') + by) % 26 + ord('a'))


words = split('level noon kayak compiler civic parser', ' ')
print(words)
print(join([word for word in words if word == turned(word)], ', '))
print(turned('stressed'), 'compiler'[:4], 'compiler'[-3:], 'pile' in 'compiler')
print(join([shifted(letter, 13) for letter in 'uryyb'], ''))
print(join(['say', \"it's\", 'a \"word\"'], ' '))
";

const WORDS_OUT: &str = "\
['level', 'noon', 'kayak', 'compiler', 'civic', 'parser']
level, noon, kayak, civic
desserts comp ler True
hello
say it's a \"word\"
";

/// Runs an example, and compares what it prints.
fn expect_printed(rt: &impl Abort, alloc: Global, source: &str, out: &str) -> Result<(), Fail> {
    let words = ["plain", "a.py"];
    let source = source.as_bytes();
    let wanted = (Status::Done, out.as_bytes(), b"".as_slice());
    expect(rt, alloc, words.as_slice(), source, NONE_FAILS, wanted)
}

#[test]
fn examples_print_what_stands_beside_them(rt: HostRuntime) -> Result<(), Fail> {
    let alloc = rt.alloc();
    expect_printed(&rt, alloc, COLLATZ, COLLATZ_OUT)?;
    expect_printed(&rt, alloc, DIGITS, DIGITS_OUT)?;
    expect_printed(&rt, alloc, FIRST, FIRST_OUT)?;
    expect_printed(&rt, alloc, HISTOGRAM, HISTOGRAM_OUT)?;
    expect_printed(&rt, alloc, MATRICES, MATRICES_OUT)?;
    expect_printed(&rt, alloc, NUMBERS, NUMBERS_OUT)?;
    expect_printed(&rt, alloc, PIPELINES, PIPELINES_OUT)?;
    expect_printed(&rt, alloc, PRIMES, PRIMES_OUT)?;
    expect_printed(&rt, alloc, SIMULATION, SIMULATION_OUT)?;
    expect_printed(&rt, alloc, SORTING, SORTING_OUT)?;
    expect_printed(&rt, alloc, WORDS, WORDS_OUT)
}
